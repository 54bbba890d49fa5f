// The numbers of refusals that have no case of their own. They have a file of their own, since `Refusals`, which lib.rt names, is defined over them.

ghost use Rattle.std.specs.Prelude.{◌≡◌, false};
ghost use Rattle.error.specs.Listed.{listed};

// A number that has no case of its own in `Refusal`. So a number and a place are one refusal and no other.
#[derive(Clone, Copy, Debug, PartialEq, Eq)]
pub struct Unlisted {
    pub number: u32,
    pub ghost has_no_case: { listed number ≡ false },
}
