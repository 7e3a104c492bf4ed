//! What is written to a packet's bytes.

ghost use Rattle.std.specs.Prelude.{◌≡◌, ◌≤◌, ◌+◌, ◌*◌, ◌++◌, false, IsTrue, length, take, max};
ghost use Rattle.std.specs.Vec.{vec_len, vec_capacity};
ghost use Rattle.enet_fragment.specs.Collected.{written_at};
ghost use Rattle.enet_fragment.specs.Private.Assembly.{filled_up};

/// Writes a piece at its place among the packet's bytes: over them where they reach to its end, and else behind them, once they
/// are cut, or filled up with zeros, to where it begins. There is room for it, so that it takes no memory.
pub(crate) fn write_at(buffer: &mut Vec<u8>, offset: usize, bytes: &[u8])
    requires { offset + length bytes.now ≤ vec_capacity buffer.old }
    ensures bytes { buffer.new.items ≡ written_at offset bytes.now (filled_up (offset + length bytes.now) buffer.old.items) }
    ensures len { vec_len buffer.new ≡ max (vec_len buffer.old) (offset + length bytes.now) }
    ensures room { vec_capacity buffer.old ≤ vec_capacity buffer.new }
{
    let end = offset + bytes.len();
    if end <= buffer.len() {
        buffer[offset..end].copy_from_slice(bytes);
    } else {
        cut_or_fill(buffer, offset);
        append(buffer, bytes);
    }
}

/// Cuts bytes to this length, or fills them up to it with zeros, for which there is room.
pub(crate) fn cut_or_fill(buffer: &mut Vec<u8>, len: usize)
    requires { len ≤ vec_capacity buffer.old }
    ensures bytes { buffer.new.items ≡ take len (filled_up len buffer.old.items) }
    ensures len { vec_len buffer.new ≡ len }
    ensures room { vec_capacity buffer.old ≤ vec_capacity buffer.new }
{
    let _ = buffer.resize(len, 0);
}

/// Appends bytes for which there is room.
pub(crate) fn append(buffer: &mut Vec<u8>, bytes: &[u8])
    requires { vec_len buffer.old + length bytes.now ≤ vec_capacity buffer.old }
    ensures bytes { buffer.new.items ≡ buffer.old.items ++ bytes.now }
    ensures len { vec_len buffer.new ≡ vec_len buffer.old + length bytes.now }
    ensures room { vec_capacity buffer.old ≤ vec_capacity buffer.new }
{
    let _ = buffer.extend_from_slice(bytes);
}
