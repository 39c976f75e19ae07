//! Laws of the definitions. Nothing in this module is to be called.

ghost use Rattle.std.specs.Prelude.{◌≡◌, ◌<◌, [], ◌∷◌, Err};
ghost use Rattle.std.specs.List.{AllByRecursion};
ghost use Rattle.pim_container.specs.Pieces.{answers};
ghost use Rattle.pim_container.specs.declared.fault.ContainerFault.TheVariants.{Magic};
ghost use Rattle.pim_files.specs.Files.{no_bytes};
ghost use Rattle.pim_files.specs.Unopened.{UnopenedNeverEnds};

/// No read can give what a reader is said to have of a file that can't be opened, since it has no
/// byte. As the bytes of a file it is a fault. So no capture with such a further file comes to its
/// end.
pub fn unopened_file_is_a_fault()
    ensures unread { AllByRecursion (λ value. 255 < value) no_bytes }
    ensures fault { answers no_bytes ≡ Err Magic ∷ [] }
    ensures never_ends { UnopenedNeverEnds }
{}
