// The items of a list of an encoding, which the steps over it find few.
ghost use Rattle.std.specs.Prelude.{◌≤◌};
ghost use Rattle.meaning.specs.Limits.{max_levels};

use payloads::first::Kind;

// The items of a list: where they start, how many they are, their kind, and how many levels are left for each.
#[derive(Clone, Copy)]
pub struct Items {
    pub from: usize,
    pub count: usize,
    pub kind: Kind,
    pub left: usize,
    pub ghost few: { (count ≤ 16384) × (left ≤ max_levels) },
}
