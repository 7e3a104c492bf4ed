//! The table of the commands, by which they are read and written.

ghost use Rattle.std.specs.Prelude.{◌≡◌, ◌+◌, ◌≤◌, length, IfSome, IfNone, None, Some, false};
ghost use Rattle.enet_codec.specs.Private.Reading.{is_kind, Tells, len_at};

use crate::read::u16_at;

/// What the table says of a command.
#[derive(Clone, Copy)]
pub(crate) struct Row {
    /// How many bytes the fields take that stand after the head.
    pub fields: usize,
    /// Where among them the payload's length stands, where there is a payload.
    pub payload_len_at: Option<usize>,
}

/// A command without a payload, of so many bytes of fields.
fn plain(fields: usize) -> Row
    ensures { result ≡ record { fields = fields; payload_len_at = None } }
{
    Row {
        fields,
        payload_len_at: None,
    }
}

/// A command with a payload, whose length stands at a place of the fields.
fn carrying(fields: usize, at: usize) -> Row
    ensures { result ≡ record { fields = fields; payload_len_at = Some at } }
{
    Row {
        fields,
        payload_len_at: Some(at),
    }
}

/// What the table says of this number; None where it is no command: 0 and 13 to 15.
pub(crate) fn row_of(kind: u8) -> Option<Row>
    ensures known { IfSome result (λ row. Tells kind row) }
    ensures unknown { IfNone result (is_kind kind ≡ false) }
{
    Some(match kind {
        1 => plain(4),
        2 => plain(44),
        3 => plain(40),
        4 => plain(4),
        5 => plain(0),
        6 => carrying(2, 0),
        7 => carrying(4, 2),
        8 => carrying(20, 2),
        9 => carrying(4, 2),
        10 => plain(8),
        11 => plain(12),
        12 => carrying(20, 2),
        _ => return None,
    })
}

impl Row {
    /// How long the payload is, by the fields at the front of the bytes.
    pub(crate) fn payload_len(self, bytes: &[u8]) -> usize
        requires within { IfSome self.payload_len_at (λ at. at + 2 ≤ self.fields) }
        requires whole { self.fields ≤ length bytes.now }
        ensures { result ≡ len_at self.payload_len_at bytes.now }
    {
        match self.payload_len_at {
            Some(at) => usize::from(u16_at(bytes, at)),
            None => 0,
        }
    }
}
