//! The command line by which `clap` reads the words: commands, options and help texts.
//!
//! The parser of an option refuses a number out of range, so that `clap` reports it like its other
//! faults. `clap`'s `help` command is disabled, since it would be one more command without a task.

ghost use Rattle.std.specs.Prelude.{◌≡◌, IfOk, true, false, []};
ghost use Rattle.clap.specs.declared.builder.command.Command.TheViews.{out-Command};
ghost use Rattle.clap.specs.Words.{app_of, shape_of, rule_of, new_app, with_rule};
ghost use Rattle.clap.specs.Words.{with_subcommand};
ghost use Rattle.pim_words.specs.CommandLine.{text_option, number_option, flag, words_rule};
ghost use Rattle.pim_words.specs.CommandLine.{bare, pimtree};
ghost use Rattle.pim_words.specs.Rows.{rule_by, shape_by, with_rows, program};

use clap::builder::ValueParser;
use clap::{Arg, ArgAction, Command};
use std::alloc::{AllocError, Global};

/// What an option takes.
#[derive(Clone, Copy)]
enum Form {
    /// One text.
    Text,
    /// One text, and the option must be given.
    Required,
    /// A number from the first one to the second.
    Number(u64, u64),
    /// One text, and the option may be given several times.
    Repeated,
    /// No value.
    Flag,
    /// The words that aren't options, any number of them.
    Words,
}

/// An option of a command, or its words.
#[derive(Clone, Copy)]
struct OptionRow<'a> {
    /// Its name.
    name: &'a str,
    /// What it takes.
    form: Form,
    /// The name of its value in help. A flag has none.
    value: &'a str,
    /// Its help.
    help: &'a str,
}

/// A command.
#[derive(Clone, Copy)]
struct Offer<'a> {
    /// Its name.
    name: &'a str,
    /// What the command does, in one line.
    about: &'a str,
    /// The usage line, if it isn't the one that `clap` makes.
    usage: Option<&'a str>,
    /// What the command prints, and an example.
    after_help: &'a str,
    /// Its options and words.
    rows: &'a [OptionRow<'a>],
}

/// The purpose of the program, as help prints it.
const ABOUT: &str = "Reads PIM sparse mode messages (RFC 7761) and says what they mean";

/// The end of the program's help: a first command, common faults, and the exit statuses.
const AFTER_HELP: &str =
    "Begin with a capture of a router's link. Here 10.0.0.2 is the router's address
on the link, and 10.9.9.9 the rendezvous point:
  pimtree replay --rp 10.9.9.9 10.0.0.2@lan.pcap
`pimtree COMMAND --help` explains each line that a command prints.

Faults that are often met first, on standard error:
  capture magic      FILE isn't classic pcap: `--input any` reads pcapng, too
  capture link-type  FILE is neither Ethernet nor raw IP: `--input any` reads
                     what `tcpdump -i any` makes, too
  config ports       no word ADDRESS@FILE was given, or more than 64 were

Exit status: 0 for success, 1 where `same` prints `different` or `audit` finds
something late, 2 for a fault.";

/// `--src`.
const SRC: OptionRow<'static> = OptionRow {
    name: "src",
    form: Form::Text,
    value: "ADDRESS",
    help: "IP source address of the message, which the checksum of{n}IPv6 covers [default: \
0.0.0.0]",
};

/// `--dst`.
const DST: OptionRow<'static> = OptionRow {
    name: "dst",
    form: Form::Text,
    value: "ADDRESS",
    help: "IP destination address; 224.0.0.13 or ff02::d for a Hello{n}or Join/Prune [default: \
224.0.0.13]",
};

/// `--partial`.
const PARTIAL: OptionRow<'static> = OptionRow {
    name: "partial",
    form: Form::Flag,
    value: "",
    help: "Print what precedes the first fault, too",
};

/// `--rp` of a command that writes messages.
const RP: OptionRow<'static> = OptionRow {
    name: "rp",
    form: Form::Required,
    value: "ADDRESS",
    help: "Rendezvous point of all groups [required]",
};

/// `--rp` of `replay`.
const REPLAY_RP: OptionRow<'static> = OptionRow {
    name: "rp",
    form: Form::Text,
    value: "ADDRESS",
    help: "Rendezvous point of all groups. A Join(*,G) counts{n}only where it names the RP of G: \
without --rp and{n}--routes none does",
};

/// `--rp` of `trace` and `audit`.
const TRACE_RP: OptionRow<'static> = OptionRow {
    name: "rp",
    form: Form::Text,
    value: "ADDRESS",
    help: "Rendezvous point of all groups. A Join(*,G) that{n}names another one is ignored; \
without --rp and{n}--routes each is",
};

/// `--upstream`.
const UPSTREAM: OptionRow<'static> = OptionRow {
    name: "upstream",
    form: Form::Required,
    value: "ADDRESS",
    help: "Upstream neighbour the messages go to [required]",
};

/// `--upstream` of `audit`.
const AUDIT_UPSTREAM: OptionRow<'static> = OptionRow {
    name: "upstream",
    form: Form::Required,
    value: "ADDRESS",
    help: "Upstream neighbour that the router asks [required]",
};

/// `--own`.
const OWN: OptionRow<'static> = OptionRow {
    name: "own",
    form: Form::Required,
    value: "ADDRESS",
    help: "Address the messages come from [required]",
};

/// `--routes`.
const ROUTES: OptionRow<'static> = OptionRow {
    name: "routes",
    form: Form::Text,
    value: "FILE",
    help: "File of lines, at most 1048576 bytes, of two forms:{n}`rp PREFIX/LENGTH ADDRESS`, the \
RP of \
these groups,{n}and `via PREFIX/LENGTH ADDRESS`, the upstream{n}neighbour toward these addresses \
[default: none]",
};

/// `--local`.
const LOCAL: OptionRow<'static> = OptionRow {
    name: "local",
    form: Form::Text,
    value: "FILE",
    help: "File of lines, at most 4096, of two forms: `star G`{n}and `source S G`, what receivers \
on the router's{n}own links want [default: none]",
};

/// `--holdtime`.
const HOLDTIME: OptionRow<'static> = OptionRow {
    name: "holdtime",
    form: Form::Number(99, 65_535),
    value: "S",
    help: "Holdtime of the messages in seconds, 99 to 65535;{n}65535 is forever [default: 210]",
};

/// `--budget`.
const BUDGET: OptionRow<'static> = OptionRow {
    name: "budget",
    form: Form::Number(70, 65_000),
    value: "N",
    help: "Most bytes of a message, 70 to 65000 [default: 1460]",
};

/// `--grace`.
const GRACE: OptionRow<'static> = OptionRow {
    name: "grace",
    form: Form::Number(0, 1_000_000_000),
    value: "MS",
    help: "How long an entry may be due before it is late, in{n}milliseconds, 0 to 1000000000 \
[default: 3000]",
};

/// `--limit`.
const LIMIT: OptionRow<'static> = OptionRow {
    name: "limit",
    form: Form::Number(1, 100_000),
    value: "N",
    help: "Most records of a port, 1 to 100000{n}[default: 100000]",
};

/// `--after`.
const AFTER: OptionRow<'static> = OptionRow {
    name: "after",
    form: Form::Number(0, 1_000_000_000),
    value: "MS",
    help: "Time to run after the last packet, in milliseconds,{n}0 to 1000000000 [default: 0]",
};

/// `--at`.
const AT: OptionRow<'static> = OptionRow {
    name: "at",
    form: Form::Text,
    value: "TIME",
    help: "Time at which the run ends, in place of --after:{n}milliseconds since the first record,\
{n}seconds since 1970 (1795329744.5), or a{n}UTC date (2026-11-22T06:42:24.5Z)",
};

/// `--input`.
const INPUT: OptionRow<'static> = OptionRow {
    name: "input",
    form: Form::Text,
    value: "KIND",
    help: "Kind of each FILE: classic, or any for whatever{n}`trace` reads, such as pcapng \
[default: classic]",
};

/// `--input` of `trace` and `audit`.
const TRACE_INPUT: OptionRow<'static> = OptionRow {
    name: "input",
    form: Form::Text,
    value: "KIND",
    help: "Kind of each FILE: any, which is read in any case",
};

/// `--vlan` of a command that reads classic captures unless `--input any` is given.
const VLAN: OptionRow<'static> = OptionRow {
    name: "vlan",
    form: Form::Repeated,
    value: "[P=]VLAN",
    help: "With --input any: only packets of this VLAN, 5, or{n}5.7 for two tags, or 0 for none; \
at all ports, or{n}at the port P",
};

/// `--interface` of such a command.
const INTERFACE: OptionRow<'static> = OptionRow {
    name: "interface",
    form: Form::Repeated,
    value: "[P=]N",
    help: "With --input any: only packets of this interface, by{n}its name or number; at all \
ports, or at P",
};

/// `--vlan` of `trace` and `audit`.
const TRACE_VLAN: OptionRow<'static> = OptionRow {
    name: "vlan",
    form: Form::Repeated,
    value: "[P=]VLAN",
    help: "Only packets of this VLAN, 5, or 5.7 for two tags,{n}or 0 for none; at all ports, or \
at the port P",
};

/// `--interface` of `trace` and `audit`.
const TRACE_INTERFACE: OptionRow<'static> = OptionRow {
    name: "interface",
    form: Form::Repeated,
    value: "[P=]N",
    help: "Only packets of this interface, by its name or{n}number; at all ports, or at the \
port P",
};

/// `--from`.
const FROM: OptionRow<'static> = OptionRow {
    name: "from",
    form: Form::Text,
    value: "TIME",
    help: "Leave out what is before this time",
};

/// `--group`.
const GROUP: OptionRow<'static> = OptionRow {
    name: "group",
    form: Form::Repeated,
    value: "ADDRESS",
    help: "Show only this group; up to 64 times [default: all]",
};

/// `--source`.
const SOURCE: OptionRow<'static> = OptionRow {
    name: "source",
    form: Form::Repeated,
    value: "ADDRESS",
    help: "Show only this source, and (*,G); up to 64 times{n}[default: all]",
};

/// `--time`.
const TIME: OptionRow<'static> = OptionRow {
    name: "time",
    form: Form::Text,
    value: "FORM",
    help: "Form of times: ms since the first record, epoch{n}(seconds since 1970), or utc \
[default: ms]",
};

/// `--all`.
const ALL: OptionRow<'static> = OptionRow {
    name: "all",
    form: Form::Flag,
    value: "",
    help: "Show what changes no state, too, such as refreshes",
};

/// `--state`.
const STATE: OptionRow<'static> = OptionRow {
    name: "state",
    form: Form::Flag,
    value: "",
    help: "Show at the end what the router holds and wants",
};

/// `--json`.
const JSON: OptionRow<'static> = OptionRow {
    name: "json",
    form: Form::Flag,
    value: "",
    help: "Write a JSON object a line in place of text",
};

/// The words of `trace` and `audit`.
const LABELLED_PORTS: OptionRow<'static> = OptionRow {
    name: "words",
    form: Form::Words,
    value: "[NAME=]ADDRESS@FILE",
    help: "A port: a name for it, the router's address on its{n}link, and a capture of that \
link; 1 to 64 ports",
};

/// The words of a command with one router.
const PORTS: OptionRow<'static> = OptionRow {
    name: "words",
    form: Form::Words,
    value: "ADDRESS@FILE",
    help: "A port: the router's address on its link, and a capture{n}of that link; 1 to 64 ports",
};

/// The words of a command with two routers.
const SIDED_PORTS: OptionRow<'static> = OptionRow {
    name: "words",
    form: Form::Words,
    value: "a|b=ADDRESS@FILE",
    help: "A port of router a or b: its address on a link, and{n}a capture of that link; 1 to 64 \
of each",
};

/// The options of `check`.
const OF_CHECK: [OptionRow<'static>; 3] = [SRC, DST, PARTIAL];

/// The options of `build`.
const OF_BUILD: [OptionRow<'static>; 2] = [SRC, DST];

/// The options and words of `replay`.
const OF_REPLAY: [OptionRow<'static>; 9] = [
    REPLAY_RP, ROUTES, LIMIT, AFTER, AT, INPUT, VLAN, INTERFACE, PORTS,
];

/// The options and words of `trace`.
const OF_TRACE: [OptionRow<'static>; 16] = [
    TRACE_RP,
    ROUTES,
    LIMIT,
    AFTER,
    AT,
    TRACE_INPUT,
    TRACE_VLAN,
    TRACE_INTERFACE,
    LABELLED_PORTS,
    FROM,
    GROUP,
    SOURCE,
    TIME,
    ALL,
    STATE,
    JSON,
];

/// The options and words of `audit`.
const OF_AUDIT: [OptionRow<'static>; 16] = [
    AUDIT_UPSTREAM,
    TRACE_RP,
    ROUTES,
    LOCAL,
    GRACE,
    LIMIT,
    AFTER,
    AT,
    TRACE_INPUT,
    TRACE_VLAN,
    TRACE_INTERFACE,
    LABELLED_PORTS,
    FROM,
    GROUP,
    TIME,
    JSON,
];

/// The options and words of a command that writes messages of one router.
const OF_ONE: [OptionRow<'static>; 13] = [
    RP, UPSTREAM, OWN, ROUTES, HOLDTIME, BUDGET, LIMIT, AFTER, AT, INPUT, VLAN, INTERFACE, PORTS,
];

/// The options and words of a command with two routers.
const OF_TWO: [OptionRow<'static>; 13] = [
    RP,
    UPSTREAM,
    OWN,
    ROUTES,
    HOLDTIME,
    BUDGET,
    LIMIT,
    AFTER,
    AT,
    INPUT,
    VLAN,
    INTERFACE,
    SIDED_PORTS,
];

/// The command `check`.
const CHECK: Offer<'static> = Offer {
    name: "check",
    about: "What does this message say, or where is it wrong?",
    usage: None,
    after_help: "The message is read from standard input, at most 65536 bytes. It begins with
its PIM header, so no IP header comes before it.

Both addresses are of one family, IPv4 (10.0.0.1) or IPv6 (fe80::1), which is
the message's. So a message over IPv6 needs both options.

A fault is printed with its offset in the body, which begins after the four
bytes of the header: `pimtree: join/prune short at 22`.

With --partial standard output has what precedes the first fault of a message,
which for a Join/Prune is each line that ends before the offset of the fault,
and then a line `fault WORDS`. Some routers act on entries that precede a fault.
The status is 2, and the fault is printed on standard error, too.

Example, at the top of the repository:
  pimtree check < examples/join-star.pim",
    rows: &OF_CHECK,
};

/// The command `build`.
const BUILD: Offer<'static> = Offer {
    name: "build",
    about: "Which bytes has the message of this text?",
    usage: None,
    after_help: "The text of a Hello or a Join/Prune message is read from standard input, in the
lines that `check` prints. The bytes of the message go to standard output, in
the canonical spelling, with its header and checksum. A message that `check`
refuses isn't written, and its fault is printed as by `check`.

Both addresses are of one family, which is the text's. So a message over IPv6
needs both options.

  text line N    the first wrong line, from 1, or the one missing at the end
  text too-long  a text above 8388608 bytes, or a message above 65536
  family         an address of the text isn't of the family of --src and --dst

Example, at the top of the repository:
  pimtree check < examples/join-star.pim | pimtree build | pimtree check",
    rows: &OF_BUILD,
};

/// The command `replay`.
const REPLAY: Offer<'static> = Offer {
    name: "replay",
    about: "What state did this router hold, and why?",
    usage: Some("pimtree replay [OPTIONS] ADDRESS@FILE..."),
    after_help: "FILE is a classic pcap file of Ethernet or raw IP, or with `--input any` one of
those that `pimtree trace --help` names. P is the place of a port's word, from
0. A FIFO, /dev/stdin and <(zcat x.pcap.gz) work as FILE, too; each line is then
written as soon as it is complete. `pimtree --help` explains faults.
With `--input any` +FILE goes on with the port before it; P doesn't count it.

Each PIM packet has a line `MS port P from A VERDICT`. MS is milliseconds since
the first record, P the place of the port's word, from 0. VERDICT is
  hello new          first Hello of a neighbour
  hello same         Hello of a neighbour that is known
  hello restarted    Hello with another Generation ID: the neighbour restarted
  hello gone         Hello with holdtime 0: the neighbour leaves
  applied            Join/Prune to this router, which acts on it; a Join(*,G)
                     that doesn't name the RP of its group does nothing
  not-for-us         Join/Prune to another upstream neighbour
  unknown-neighbour  Join/Prune of a sender that sent no Hello
  mine               packet from the port's own address
  type N             message of another PIM type, which is ignored
  malformed FAULT    message that is refused as a whole, and its first fault
  full neighbours    new neighbour that is refused: there are 1024 already
  full N             Join/Prune that is refused: N records, more than --limit
`MS port P echo star G` or `.. source S G`: a prune took effect, and the router
repeats it to itself (PruneEcho).

After `state at MS` each (*,G), (S,G) and (S,G,rpt) that a port holds has a line
`star G`, `source S G` or `rpt S G` with its state and timers:
  et N         expiry timer: the state ends in N milliseconds, or `never`
  ppt N        prune-pending timer: the prune takes effect in N milliseconds
Then come the demand toward upstream, and two counts:
  want star G      the group's shared tree, but for the sources of `except S G`
  want source S G  the tree of one source
  skipped N        records without a PIM packet of the addresses' family
  refreshes N      times that Join/Prune messages were due: each 60 s

Example, at the top of the repository:
  pimtree replay --rp 10.9.9.9 10.0.0.2@examples/lan.pcap",
    rows: &OF_REPLAY,
};

/// The command `trace`.
const TRACE: Offer<'static> = Offer {
    name: "trace",
    about: "What changed in this router, when, and which packet was the cause?",
    usage: Some("pimtree trace [OPTIONS] [NAME=]ADDRESS@FILE..."),
    after_help: "Each line begins with a time and the name of a port, which is its place, from 0,
unless its word gives one: a letter, then up to 31 letters, digits, . _ or -.
#N is the record N of the port's FILE, from 1, as other tools number it.
`pimtree replay --help` explains each verdict.

FILE is pcapng or classic pcap: Ethernet, raw IP, Linux cooked as by
`tcpdump -i any`, or BSD loopback, with up to two VLAN tags. `-` is standard
input, for one FILE, that of --routes included; a FIFO and <(zcat x.pcap.gz)
work, too. A port is one link, so these are faults:
  capture vlans 5,5.7     PIM packets of two VLANs, here 5 and 5.7
  capture interfaces 0,1  PIM packets of two interfaces
--vlan and --interface choose one. P is the place of a port's word, from 0.
A word +FILE goes on with the port of the word before it; P doesn't count it.

A machine is `star G` for (*,G), `source S G` or `rpt S G`. Its states are
no-info, join, prune-pending and prune. A packet that changes one has a line
  #N A joins MACHINE: STATE -> STATE
  #N A prunes MACHINE: ..
  #N A no longer prunes MACHINE: ..       the message ends without that Prune
  .., et N                 the state ends in N milliseconds, or `never`
  .., ppt N, N neighbours  a prune that others can override for N milliseconds
  .., overrides #N         a Join in time: the Prune in record N has no effect

What time does, each with the packet that set the timer, and how long before:
  prune takes effect MACHINE: ..; pruned by A in #N, ..
                           nobody overrode; `echo`: the router repeats the Prune
  expired MACHINE: ..; time set by A in #N, ..
                           no Join or Prune came again within its holdtime
  neighbour A timed out; Hello #N, ..
                           no Hello came again; what it joined stays

Other packets:
  #N A: hello new          first Hello of a neighbour, with its Generation ID
  #N A: hello restarted    another Generation ID: the neighbour lost its state
  #N A: hello gone         Hello with holdtime 0: the neighbour leaves
  #N A: VERDICT            a packet without effect; a Join/Prune has its
                           upstream neighbour, and how many entries it has
  #N A joins star G: ignored, ..
                           the Join names another RP than --rp or --routes do
  #N own Hello, ..: this router restarted
                           a capture can't show that it lost what it held
  #N skipped: cut short by the end of its file

The last line is `end:`, with the machines and the neighbours that are held, and
the skipped records by cause.

--state has these lines before `end:`, the records of the ports, then the demand
toward upstream:
  holds MACHINE: STATE for N ms, et N, ppt N; time set by A in #N, N ms before
                           the machine left no-info N milliseconds before
  wants star G via A       the group's shared tree; A is the upstream neighbour,
                           if it is known
  wants source S G via A   the tree of one source
  wants star G via A except S
                           the shared tree, but not for this source

--all also shows refreshes (STATE -> the same STATE), `hello same`, each packet
that is applied, the router's own, and each skipped record. --group leaves out
machines and demand of other groups, --source those of other sources, and
Join/Prune messages about neither.

--json writes these events: hello, packet, transition, ignored, restarted,
skipped, timed-out, fired, record, want, end. Members without a value are null.

Example, at the top of the repository:
  pimtree trace --rp 10.9.9.9 --after 5000 lan=10.0.0.2@examples/lan.pcap",
    rows: &OF_TRACE,
};

/// The command `audit`.
const AUDIT: Offer<'static> = Offer {
    name: "audit",
    about: "Does this router ask its upstream neighbour for what it has to?",
    usage: Some("pimtree audit [OPTIONS] [NAME=]ADDRESS@FILE..."),
    after_help: "The words name all ports of the router, the one toward U among them; U is the
address of --upstream. `pimtree trace --help` explains times, NAME, #N and FILE.
The FILE of --local may be `-`, too.

From what the neighbours of the ports want follows what the router has to ask U
for (RFC 7761, 4.5). U was asked for what it heard from the router, and from the
others on its links. Each ENTRY of a Join/Prune message is
  join star G, or prune star G          the group's shared tree
  join source S G, or prune source S G  the tree of one source
  join rpt S G, or prune rpt S G        one source on the shared tree
It is due while U has to be asked for it and wasn't, and late once it is due for
longer than --grace. While U is a neighbour on no port, nothing is due. Without
--routes U is the neighbour toward all addresses.

Each line begins with a time, and with the name of a port if it has a #N:
  late: ENTRY, due since TIME
                 the entry becomes late
  #N A sends ENTRY: N ms after it was due
                 a Join/Prune message to U has the late entry
  no longer due: ENTRY, after N ms
                 what is wanted or asked changed; the late entry isn't needed
  #N A: hello restarted; it lost what it was asked
                 U has another Generation ID: all is due again
  #N A: hello gone; it lost what it was asked
                 U leaves
  neighbour A timed out; it lost what it was asked
                 no Hello of U came again
  #N A: full N at the upstream neighbour
                 a message to U is left out: N records, more than --limit
  #N own Hello, ..: this router restarted
                 a capture can't show that it lost what it held
  end: due N late N worst MS open N
                 how many entries were due, and how many were late; how long
                 the worst of these was due; how many of them still are

Receivers on the router's own links (IGMP, MLD, static joins) make it ask for
more than its PIM neighbours want, which shows as late prunes. --local states
what they want: each of its lines counts as wanted from the start to the end.
An RP or a first-hop router joins sources for other reasons.

--group leaves out entries of other groups; they count in no number of `end`.

--json writes these events: late, sent, dropped, upstream, full, restarted, end.
Members without a value are null.

Example, at the top of the repository:
  pimtree audit --upstream 10.1.0.1 --rp 10.9.9.9 \\
    lan=10.0.0.2@examples/transit-lan.pcap up=10.1.0.2@examples/transit-up.pcap

Exit status: 0 where nothing was late, 1 where something was, 2 for a fault.",
    rows: &OF_AUDIT,
};

/// The command `same`.
const SAME: Offer<'static> = Offer {
    name: "same",
    about: "Do these two routers want the same traffic?",
    usage: Some("pimtree same [OPTIONS] a=ADDRESS@FILE... b=ADDRESS@FILE..."),
    after_help: "Prints `same`, with status 0, where both routers ask the upstream neighbour for
the same traffic at the end, or `different`, with status 1.
`pimtree replay --help` explains what a FILE is.
With `--input any` a word +FILE goes on with the port of the word before it.

Example, at the top of the repository:
  pimtree same --rp 10.9.9.9 --upstream 10.0.0.3 --own 10.0.0.1 \\
    a=10.0.0.2@examples/lan.pcap b=10.0.0.2@examples/lost.pcap",
    rows: &OF_TWO,
};

/// The command `mirror`.
const MIRROR: Offer<'static> = Offer {
    name: "mirror",
    about: "Which messages make a fresh router want what this router wants?",
    usage: Some("pimtree mirror [OPTIONS] ADDRESS@FILE..."),
    after_help: "Prints `message N HEX` for each Join/Prune message, N bytes long, then
`messages N`, and `agrees` where a fresh router that hears them writes the same.
`pimtree replay --help` explains what a FILE is.
With `--input any` a word +FILE goes on with the port of the word before it.

Example, at the top of the repository:
  pimtree mirror --rp 10.9.9.9 --upstream 10.0.0.3 --own 10.0.0.1 \\
    10.0.0.2@examples/lan.pcap",
    rows: &OF_ONE,
};

/// The command `emit`.
const EMIT: Offer<'static> = Offer {
    name: "emit",
    about: "By which messages does this router ask its upstream neighbour?",
    usage: Some("pimtree emit [OPTIONS] ADDRESS@FILE..."),
    after_help: "Writes the Join/Prune messages as bytes, each after its length, which is two
bytes, big-endian. Nothing else is written.
`pimtree replay --help` explains what a FILE is.
With `--input any` a word +FILE goes on with the port of the word before it.

Example, at the top of the repository:
  pimtree emit --rp 10.9.9.9 --upstream 10.0.0.3 --own 10.0.0.1 \\
    10.0.0.2@examples/lan.pcap | xxd",
    rows: &OF_ONE,
};

/// The command `change`.
const CHANGE: Offer<'static> = Offer {
    name: "change",
    about: "Which messages move the upstream neighbour from a's demand to b's?",
    usage: Some("pimtree change [OPTIONS] a=ADDRESS@FILE... b=ADDRESS@FILE..."),
    after_help: "Prints `message N HEX` for each Join/Prune message, N bytes long, then
`messages N`, and `agrees` where a fresh router that wants what a wants, and
then hears them, wants what b wants.
`pimtree replay --help` explains what a FILE is.
With `--input any` a word +FILE goes on with the port of the word before it.

Example, at the top of the repository:
  pimtree change --rp 10.9.9.9 --upstream 10.0.0.3 --own 10.0.0.1 \\
    a=10.0.0.2@examples/lan.pcap b=10.0.0.2@examples/lost.pcap",
    rows: &OF_TWO,
};

/// The command `session`, which has no options.
const SESSION: Offer<'static> = Offer {
    name: "session",
    about: "How does a router answer these commands, one a line?",
    usage: None,
    after_help: "Commands are read from standard input, one a line, their words parted by one
space. Empty lines and lines that begin with # are passed over. An answer is
lines and then `ok`, or one line `fault ..`, after which nothing has changed.
All answers so far are written out before more is read. Moments MS are
milliseconds since `start`, and P is the place of a `port` line, from 0.

Before `start`, each answered by `ok`:
  port ADDRESS [delays PROPAGATION OVERRIDE]
                 one port more, with these delays [default: 500 2500]
  rp ADDRESS/LENGTH ADDRESS
                 the RP of these groups
  via ADDRESS/LENGTH ADDRESS
                 the upstream neighbour toward these addresses
  limit N        the most records of a port [default: 100000]
  start          makes the router, at moment 0

After `start`:
  run MS         runs to this moment, and prints `M port P echo star G`,
                 `M port P echo source S G` and `M refresh` as they come
  packet P SRC DST HEX
                 gives port P a message now, and prints its verdict, one of
                 those in `pimtree replay --help`
  from P SRC [to DST]
                 the same for the message of a text, in the lines of `check`,
                 up to the line `send`; DST is ALL-PIM-ROUTERS if not given
  now            prints the moment
  next           prints when the next timer of a record ends, or `never`
  state          prints the records, as `replay` does
  wants          prints the demand, as `replay` does, each line with ` via A`,
                 the upstream neighbour, or ` via -`
  neighbours     prints `port P neighbour A left T` of each, T in milliseconds
                 or `never`, and its options in the words of `check`
  messages UPSTREAM OWN [holdtime S] [budget N]
                 prints the messages that ask UPSTREAM, as `mirror` does
                 [default: 210 s, 1460 bytes]
  keep NAME UPSTREAM
                 keeps what is asked of UPSTREAM now, over what NAME held
  change NAME UPSTREAM OWN [holdtime S] [budget N]
                 prints the messages from what NAME keeps to what is asked now
  same NAME UPSTREAM OWN [holdtime S] [budget N]
                 prints `same` where both have the same messages, otherwise
                 `different`

At any time:
  reset          forgets the router and its configuration, but keeps each NAME

Example, at the top of the repository:
  pimtree session < examples/override.session",
    rows: &[],
};

/// All commands, in the order of help.
const OFFERS: [Offer<'static>; 10] = [
    CHECK, BUILD, REPLAY, TRACE, AUDIT, SAME, MIRROR, EMIT, CHANGE, SESSION,
];

/// An option that takes one text.
fn text_option<'a>(alloc: Global, row: OptionRow<'a>) -> Arg<'a>
    ensures rule { rule_of result ≡ text_option row.entry.name.now }
    ensures local { result.global ≡ false }
{
    Arg::new(alloc, row.name)
        .long(row.name)
        .value_name(row.value)
        .help(row.help)
}

/// An option that takes a number from `low` to `high`.
fn number_option<'a>(alloc: Global, row: OptionRow<'a>, low: u64, high: u64) -> Arg<'a>
    ensures rule { rule_of result ≡ number_option row.entry.name.now low high }
    ensures local { result.global ≡ false }
{
    text_option(alloc, row).value_parser(ValueParser::unsigned(low, high))
}

/// An option without a value.
fn flag<'a>(alloc: Global, row: OptionRow<'a>) -> Arg<'a>
    ensures rule { rule_of result ≡ flag row.entry.name.now }
    ensures local { result.global ≡ false }
{
    Arg::new(alloc, row.name)
        .long(row.name)
        .action(ArgAction::SetTrue)
        .help(row.help)
}

/// The words that aren't options, any number of them.
fn words<'a>(alloc: Global, row: OptionRow<'a>) -> Arg<'a>
    ensures rule { rule_of result ≡ words_rule row.entry.name.now }
    ensures local { result.global ≡ false }
{
    Arg::new(alloc, row.name)
        .action(ArgAction::Append)
        .value_name(row.value)
        .help(row.help)
}

/// The option, or the words, of a row.
fn option<'a>(alloc: Global, row: OptionRow<'a>) -> Arg<'a>
    ensures rule { rule_of result ≡ rule_by row.entry }
    ensures local { result.global ≡ false }
{
    match row.form {
        Form::Text => text_option(alloc, row),
        Form::Required => text_option(alloc, row).required(true),
        Form::Number(low, high) => number_option(alloc, row, low, high),
        Form::Repeated => text_option(alloc, row).action(ArgAction::Append),
        Form::Flag => flag(alloc, row),
        Form::Words => words(alloc, row),
    }
}

/// Adds an option that isn't global.
fn with_option<'a>(command: Command<'a>, option: Arg<'a>) -> Result<Command<'a>, AllocError>
    requires local { (out-Command command).has_globals ≡ false }
    requires option { option.global ≡ false }
    ensures app { IfOk result (λ c. app_of c
        ≡ with_rule (app_of command.entry) (rule_of option.entry)) }
    ensures local { IfOk result (λ c. (out-Command c).has_globals ≡ false) }
{
    command.arg(option)
}

/// Adds a command without global options.
fn with_command<'a>(whole: Command<'a>, command: Command<'a>) -> Result<Command<'a>, AllocError>
    requires local { (out-Command whole).has_globals ≡ false }
    requires command { (out-Command command).has_globals ≡ false }
    ensures app { IfOk result (λ c. app_of c
        ≡ with_subcommand (app_of whole.entry) (shape_of command.entry)) }
    ensures local { IfOk result (λ c. (out-Command c).has_globals ≡ false) }
{
    whole.subcommand(command)
}

/// Adds the options and words of these rows, in order.
fn with_rows<'a>(
    alloc: Global,
    command: Command<'a>,
    rows: &[OptionRow<'a>],
) -> Result<Command<'a>, AllocError>
    requires { (out-Command command).has_globals ≡ false }
    ensures app { IfOk result (λ c. app_of c ≡ with_rows (app_of command.entry) rows.now) }
    ensures local { IfOk result (λ c. (out-Command c).has_globals ≡ false) }
{
    let mut command = command;
    for row in rows {
        command = with_option(command, option(alloc, *row))?;
    }
    Ok(command)
}

/// A command without its options.
fn described<'a>(alloc: Global, offer: Offer<'a>) -> Command<'a>
    ensures app { app_of result ≡ new_app offer.entry.name.now }
    ensures local { (out-Command result).has_globals ≡ false }
{
    let command = Command::new(alloc, offer.name)
        .about(offer.about)
        .after_help(offer.after_help);
    match offer.usage {
        Some(usage) => command.override_usage(usage),
        None => command,
    }
}

/// A command with its options.
fn offered<'a>(alloc: Global, offer: Offer<'a>) -> Result<Command<'a>, AllocError>
    ensures shape { IfOk result (λ c. shape_of c ≡ shape_by offer.entry) }
    ensures local { IfOk result (λ c. (out-Command c).has_globals ≡ false) }
{
    with_rows(alloc, described(alloc, offer), offer.rows)
}

/// The program without its commands, of which one must be given.
fn bare_command<'a>(alloc: Global) -> Command<'a>
    ensures app { app_of result ≡ record { top = bare; subs = [] } }
    ensures local { (out-Command result).has_globals ≡ false }
{
    Command::new(alloc, "pimtree")
        .version("0.3.0")
        .about(ABOUT)
        .after_help(AFTER_HELP)
        .disable_help_subcommand(true)
        .subcommand_required(true)
}

/// The program with these commands, in order.
fn program<'a>(alloc: Global, offers: &[Offer<'a>]) -> Result<Command<'a>, AllocError>
    ensures app { IfOk result (λ c. app_of c ≡ program offers.now) }
    ensures local { IfOk result (λ c. (out-Command c).has_globals ≡ false) }
{
    let mut whole = bare_command(alloc);
    for offer in offers {
        let command = offered(alloc, *offer)?;
        whole = with_command(whole, command)?;
    }
    Ok(whole)
}

/// The program with all its commands.
pub(crate) fn command<'a>(alloc: Global) -> Result<Command<'a>, AllocError>
    ensures app { IfOk result (λ c. app_of c ≡ pimtree) }
    ensures local { IfOk result (λ c. (out-Command c).has_globals ≡ false) }
{
    program(alloc, &OFFERS)
}
