//! What holds of every body.

ghost use Rattle.std.specs.Prelude.{◌≡◌, ◌<◌, ◌≤◌, ℕ, List, length, Some};
ghost use Rattle.enet_range_coder.specs.Code.{code_of, body_of};

/// What was compressed comes back, and nothing else is opened.
pub fn codes_open()
    // The code of a body opens to the body, where there is room for it.
    ensures round_trip { (body code : List ℕ) (room : ℕ) → length body ≤ room → code_of body ≡ Some code → body_of room code ≡ Some body }
    // What opens to a body is its code, and the body isn't longer than the room that there is.
    ensures strict { (body code : List ℕ) (room : ℕ) → body_of room code ≡ Some body → code_of body ≡ Some code }
    ensures within { (body code : List ℕ) (room : ℕ) → body_of room code ≡ Some body → length body ≤ room }
    // No code is of no bytes.
    ensures some { (body code : List ℕ) → code_of body ≡ Some code → 0 < length code }
{}
