//! Growths that are refused.

use super::bodies::hear_body;
use super::{GROUP, SEVERAL};
use pim_addr::{Routes, V4};
use pim_down::{HearFault, Ports, State, Step, What};
use std::alloc::Global;

/// Upstream 10.0.0.2, holdtime 210, and three sets of the group: this source as an (S,G) joined and
/// as an (S,G,rpt) pruned; another one as an (S,G,rpt) joined; and the same pruned again.
fn message(source: [u8; 4], before: [u8; 4]) -> [u8; 78] {
    let [a, b, c, d] = source;
    let [e, f, g, h] = before;
    [
        1, 0, 10, 0, 0, 2, 0, 3, 0, 210, 1, 0, 0, 32, 239, 1, 1, 1, 0, 1, 0, 1, 1, 0, 4, 32, a, b,
        c, d, 1, 0, 5, 32, a, b, c, d, 1, 0, 0, 32, 239, 1, 1, 1, 0, 1, 0, 0, 1, 0, 5, 32, e, f, g,
        h, 1, 0, 0, 32, 239, 1, 1, 1, 0, 0, 0, 1, 1, 0, 5, 32, e, f, g, h,
    ]
}

/// The source before this one; the first one is its own.
fn before(fourth: u8) -> [u8; 4] {
    [192, 0, 2, fourth.saturating_sub(1).max(1)]
}

/// Hears of a source.
fn hear(ports: &mut Ports<V4>, routes: &Routes<V4>, fourth: u8) -> Option<Result<(), HearFault>> {
    let bytes = message([192, 0, 2, fourth], before(fourth));
    hear_body(ports, routes, 0, &bytes, SEVERAL)
}

/// Whether what is held is what was held before this source was heard of, at the moment 7.
fn is_before(ports: &Ports<V4>, fourth: u8) -> bool {
    let source = What::Source([192, 0, 2, fourth]);
    let held = ports.state_of(0, GROUP, What::Rpt(before(fourth)));
    ports.now() == 7
        && ports.count_on(0) == 2 * usize::from(fourth).saturating_sub(1)
        && ports.state_of(0, GROUP, source).is_none()
        && held.is_some() == (fourth > 1)
}

/// Whether both machines of this source are held too.
fn is_behind(ports: &Ports<V4>, fourth: u8) -> bool {
    let source = [192, 0, 2, fourth];
    ports.count_on(0) == 2 * usize::from(fourth)
        && ports.state_of(0, GROUP, What::Source(source)) == Some(State::Join)
        && ports.state_of(0, GROUP, What::Rpt(source)) == Some(State::PrunePending)
        && ports.state_of(0, GROUP, What::Rpt(before(fourth))) == Some(State::PrunePending)
}

/// Hears of a source, and once more where memory is refused: whether all is as it should be.
fn goes(ports: &mut Ports<V4>, routes: &Routes<V4>, fourth: u8) -> bool {
    let mut heard = hear(ports, routes, fourth);
    if heard == Some(Err(HearFault::Memory)) {
        if !is_before(ports, fourth) {
            return false;
        }
        heard = hear(ports, routes, fourth);
    }
    heard == Some(Ok(())) && is_behind(ports, fourth)
}

/// The first source of 39 with which it doesn't go so from 7 ms on.
fn first_wrong(ports: &mut Ports<V4>, routes: &Routes<V4>) -> Option<u8> {
    if ports.run_to(7) != Step::Reached {
        return Some(0);
    }
    for fourth in 1..40 {
        if !goes(ports, routes, fourth) {
            return Some(fourth);
        }
    }
    None
}

/// The same of new ports.
fn wrong(alloc: Global) -> Option<u8> {
    let mut ports: Ports<V4> = Ports::new(alloc, 1, 100);
    let routes: Routes<V4> = Routes::new(alloc);
    first_wrong(&mut ports, &routes)
}

// With each allocation refused in turn (`tools/each_growth_refused.sh`): nothing has changed, and
// the same message, with memory, leaves what it would have left.
#[test]
fn refusals_change_nothing(rt: HostRuntime) {
    assert_eq!(rt; wrong(rt.alloc()), None);
}
