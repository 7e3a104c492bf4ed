//! The forms of a script's lines, as docs/LAB.md has them.

/// What the lines before one have made.
#[derive(Clone, Copy, PartialEq, Eq)]
pub enum Made {
    /// Nothing: the line that makes the hosts is still to come.
    Nothing,
    /// A world of two hosts.
    World,
    /// A server and its clients.
    Fleet,
    /// Nothing, since the line that makes the hosts was refused.
    Refused,
}

/// The form of a line that makes the hosts, by its first word.
pub(crate) fn making_form(word: &str) -> Option<&'static str> {
    match word {
        "pair" => Some("pair <channels>"),
        "open" => Some("open <slots> <channels> <slots> <channels>"),
        "fleet" => Some("fleet <clients> <slots> <channels>"),
        _ => None,
    }
}

/// The form of a line about these hosts, by its first word.
pub(crate) fn event_form(made: Made, word: &str) -> Option<&'static str> {
    match made {
        Made::World => world_form(word),
        Made::Fleet => fleet_form(word),
        Made::Nothing | Made::Refused => None,
    }
}

fn world_form(word: &str) -> Option<&'static str> {
    match word {
        "connect" => Some("connect <host> <channels> <data> <id>"),
        "deliver" => Some("deliver <host> <k>"),
        "calm" => Some("calm <rounds> <ms>"),
        "rounds" => Some("rounds <connection> <ms>"),
        _ => host_form(word),
    }
}

fn fleet_form(word: &str) -> Option<&'static str> {
    match word {
        "connect" => Some("connect <client> <channels> <data> <id>"),
        "deliver" => Some("deliver <host> <from> <k>"),
        "stranger" => Some("stranger <host> <ip> <port> <bytes>"),
        _ => host_form(word),
    }
}

// The form of a line about a host, of whichever network it is.
fn host_form(word: &str) -> Option<&'static str> {
    match word {
        "submit" => Some("submit <host> <peer> <channel> <flags> <bytes>"),
        "turn" => Some("turn <host>"),
        "tick" => Some("tick <host> <ms>"),
        "take" => Some("take <host>"),
        "give-way" => Some("give-way <host>"),
        "most" => Some("most <host> <n>"),
        "of-address" => Some("of-address <host> <n>"),
        "send-limit" => Some("send-limit <host> <limit> <limit>"),
        "now" => Some("now <host> <peer> <data>"),
        "ask" => Some("ask <host> <peer> <data>"),
        "later" => Some("later <host> <peer> <data>"),
        _ => None,
    }
}
