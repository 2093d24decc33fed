//! Laws of commitments: what follows from the definition of their input alone. Each function does nothing, and its
//! contract is proved.
ghost use Rattle.sg_commit.specs.Laws.{InputsAreOneToOne, InputsHave29Bytes};

/// A commitment hashes 29 bytes.
pub fn input_length_law()
    ensures { InputsHave29Bytes }
{}

/// The input of a commitment tells its kind, race, instance, place, key and value: two different places of the record never
/// hash the same bytes, and nor do two openings at one place.
pub fn one_to_one_law()
    ensures { InputsAreOneToOne }
{}
