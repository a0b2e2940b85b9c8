//! How a repetition is compiled: copies of its body, and further places.
ghost use Rattle.std.specs.Prelude.{◌≡◌, ◌+◌, ◌*◌, ◌^◌, ◌<◌};
ghost use Rattle.regex_lite_engine.specs.Graph.PlaceCounts.{copies, own_places, own_arrows};
ghost use Rattle.regex_lite_engine.specs.Graph.PlaceCounts.{own_choice_arrows};
ghost use Rattle.regex_lite_engine.specs.Graph.PlaceCounts.{bounded_places, bounded_arrows};

/// The number of copies of its body that a repetition has.
pub(crate) fn copies(least: u32, most: Option<u32>) -> u64
    ensures { result ≡ copies least most }
{
    match most {
        None => u64::from(least.max(1)),
        Some(most) => u64::from(least.max(most)),
    }
}

/// The places that a repetition has besides the copies of its body.
#[derive(Clone, Copy)]
pub(crate) struct OwnPlaces {
    pub(crate) choices: u64,
    /// A join, and an empty place.
    pub(crate) others: u64,
}

impl OwnPlaces {
    /// The own places of a repetition with these bounds.
    pub(crate) fn of(least: u32, most: Option<u32>, nullable_body: bool) -> OwnPlaces
        ensures places { result.choices + result.others ≡ own_places least most nullable_body }
        ensures arrows { 2 * result.choices + result.others ≡ own_arrows least most nullable_body }
        ensures choice_arrows { 2 * result.choices ≡ own_choice_arrows least most nullable_body }
        ensures few { (result.choices < 2 ^ 32) × (result.others < 3) }
    {
        let Some(most) = most else {
            return if least == 0 && nullable_body {
                OwnPlaces {
                    choices: 2,
                    others: 1,
                }
            } else {
                OwnPlaces {
                    choices: 1,
                    others: 0,
                }
            };
        };
        let choices = most.saturating_sub(least);
        OwnPlaces {
            choices: u64::from(choices),
            others: other_places(least, choices),
        }
    }
}

/// The number of places of a repetition with this number of choices that are neither choices nor in
/// a copy: the join, if there is a choice, and an empty place, if no copy comes before the choices.
fn other_places(least: u32, choices: u32) -> u64
    ensures places { choices + result ≡ bounded_places least choices }
    ensures arrows { 2 * choices + result ≡ bounded_arrows least choices }
    ensures few { result < 3 }
{
    if choices == 0 {
        return if least == 0 { 1 } else { 0 };
    }
    if least > 0 || choices == 1 { 1 } else { 2 }
}
