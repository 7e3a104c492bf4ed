//! When a command was sent.

ghost use Rattle.std.specs.Prelude.{◌≡◌, ◌==◌};
ghost use Rattle.enet_rtt.specs.SendTimes.{no_sends, with_send, has_time};

/// So many moments are kept.
const KEPT: usize = 8;

/// The moments at which a command was sent, each by the 16 bits of the clock that a datagram tells: the first seven and the last.
#[derive(Clone, Copy)]
pub struct SendTimes {
    /// They stand in front, in their order.
    pub times: [u16; KEPT],
    /// How many there are.
    pub count: u8,
}

/// Whether an acknowledgement that repeats this time is of this send.
fn is_repeated(sent: u16, time: u16) -> bool
    ensures { result ≡ (sent == time) }
{
    sent == time
}

impl SendTimes {
    /// Of a command that is sent for the first time at `now`, in milliseconds.
    pub fn begin(now: u32) -> SendTimes
        ensures { result ≡ with_send now no_sends }
    {
        let mut times = SendTimes {
            times: [0; KEPT],
            count: 0,
        };
        times.add(now);
        times
    }

    /// It was sent once more, at `now`.
    pub fn add(&mut self, now: u32)
        ensures { self.new ≡ with_send now self.old }
    {
        let place = self.count.min(7);
        self.times[usize::from(place)] = (now % 65_536) as u16;
        self.count = place + 1;
    }

    /// Whether it was sent at this time of 16 bits, as an acknowledgement repeats one (our profile).
    pub fn contains(&self, time: u16) -> bool
        ensures { result ≡ has_time time self.now }
    {
        self.times
            .iter()
            .take(usize::from(self.count))
            .any(|sent| is_repeated(*sent, time))
    }
}
