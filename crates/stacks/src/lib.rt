// A stack in an array: definitions in specs/ and laws in proofs/, for the crates that keep one; and the choice that its operations make.
// They choose values so that they need no branch on the state: where a state differs by the branch, all of it is copied.
#![tactic(auto)]

ghost use Rattle.std.specs.Prelude.{if◌then◌else◌, ◌≡◌};

// As a function, and not an `if` where it is used, which takes 1.2 times as long there.
pub fn chosen<T: Copy>(b: bool, x: T, y: T) -> T
    ensures { result ≡ (if b then x else y) }
{
    if b { x } else { y }
}
