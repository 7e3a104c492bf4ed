//! What the program can be told.

use crate::admission::{Admission, number, read_admission, with_admission};
use crate::seconds::microseconds_of;
use crate::versions::version;
use clap::error::ErrorKind;
use clap::{Arg, ArgAction, ArgMatches, Command, Error, value_parser};
use enet_codec::Addr;
use std::alloc::{AllocError, Global};
use std::net::{Ipv4Addr, SocketAddrV4};
use std::rt::Env;
use std::{env, io};

/// So many bytes at least are unsent or unacknowledged before a client is full, if nothing is said of it.
const UNSENT: u32 = 16_777_216;

/// So many commands at least.
const UNSENT_COMMANDS: u32 = 16_384;

/// How long `serve` serves.
#[derive(Clone, Copy)]
pub enum Length {
    /// So many turns.
    Turns(u32),
    /// Until the process is stopped.
    Forever,
}

/// What `serve` was told.
#[derive(Drop)]
pub struct ServeOptions {
    /// Where it listens.
    pub address: Addr,
    /// How many clients it has room for, 1 to 4,095.
    pub peers: u16,
    /// How many channels a client is granted at most, 1 to 255.
    pub channels: u8,
    /// How many places each queue between its threads has, 1 to 65,536.
    pub queue_capacity: u32,
    /// The greatest packet that is taken of a client, in bytes.
    pub max_packet: u32,
    /// Bytes of a client's packets at which no further packet begins.
    pub max_waiting: u32,
    /// How much is unsent or unacknowledged for a client that is full; None where none ever is.
    pub max_unsent: Option<Unsent>,
    /// How long it serves.
    pub length: Length,
    /// Whether each connection and each end of one is told and, once a second, how many orders were refused.
    pub logs: bool,
    /// Which threads serve.
    pub threads: ServerThreads,
    /// Whether standard input is read.
    pub is_controlled: bool,
    /// How it meets those who come.
    pub admission: Admission,
    /// Whether it draws by a secret of the system's, without which it doesn't serve.
    pub has_secret: bool,
    /// Where figures are told over HTTP.
    pub metrics: Option<SocketAddrV4>,
}

/// How much is queued, or sent and not acknowledged, for a client that is full.
#[derive(Clone, Copy)]
pub struct Unsent {
    /// So many bytes of packets.
    pub bytes: u32,
    /// Or so many commands: packets, or the pieces of long ones.
    pub commands: u32,
}

/// How long packets may be, and how much of them may wait.
#[derive(Clone, Copy)]
struct Lengths {
    max_packet: u32,
    max_waiting: u32,
    max_unsent: Option<Unsent>,
}

/// Which threads serve.
#[derive(Clone, Copy, PartialEq, Eq)]
pub enum ServerThreads {
    /// One takes the service's turns and relays.
    One,
    /// One takes the service's turns, and another relays.
    Two,
}

/// What `demo` was told.
#[derive(Drop)]
pub struct DemoOptions {
    /// How many clients there are, 1 to 8.
    pub clients: u8,
    /// How many turns each service takes.
    pub turns: u32,
    /// The port of the server that is there; None where one is to be started.
    pub port: Option<u16>,
    /// The file to draw into; None where nothing is drawn.
    pub picture: Option<String>,
}

/// What `inspect` was told.
#[derive(Drop)]
pub struct InspectOptions {
    /// The file to read; None where standard input is read.
    pub file: Option<String>,
    /// The file to draw into; None where the datagrams are told in words.
    pub picture: Option<String>,
    /// The end of the connections at which the capture was made, if that is known.
    pub at: Option<End>,
    /// What is drawn of the capture.
    pub asked: Asked,
    /// Whether packets are told whole, in words.
    pub is_full: bool,
}

/// What is asked for of a capture: of what isn't named, all.
#[derive(Clone, Copy)]
pub struct Asked {
    /// The number of a connection.
    pub connection: Option<u32>,
    /// The channel of commands.
    pub channel: Option<u8>,
    /// From so many microseconds after the capture's beginning on.
    pub from: Option<u64>,
    /// Up to so many.
    pub to: Option<u64>,
}

/// An end of a connection, as the picture has it.
#[derive(Clone, Copy)]
pub enum End {
    Left,
    Right,
}

/// What the program is to do.
pub enum Task {
    /// The help or the version was printed, and nothing is left to do.
    Nothing,
    /// To run a script of the lab, with an explanation of each line or without.
    Lab {
        /// Whether each line is explained.
        is_explained: bool,
        /// The file to draw into; None where nothing is drawn.
        picture: Option<String>,
    },
    /// To tell what datagrams say.
    Inspect(InspectOptions),
    /// To relay chat.
    Serve(ServeOptions),
    /// To show a server with clients.
    Demo(DemoOptions),
}

/// Why there is nothing to do.
#[derive(Clone, Copy, Debug)]
pub enum Unread {
    /// The command line was refused.
    Refused,
    /// The bytes at which a client is full are fewer than those of two packets of the greatest length.
    TooFewUnsent,
    /// There was no memory to read it.
    Memory,
    /// The help or the version couldn't be written.
    Io,
}

impl From<AllocError> for Unread {
    fn from(_error: AllocError) -> Unread {
        Unread::Memory
    }
}

/// Reads the command line. `--help` and `--version` are answered here.
pub fn read_task<R: Env + Print + Eprint + AllocGlobal>(rt: &R) -> Result<Task, Unread> {
    let words = words_of(rt)?;
    match command(rt.alloc())?.try_get_matches_from(words.as_slice()) {
        Ok(found) => task_of(rt.alloc(), &found)?.ok_or(Unread::Refused),
        Err(error) => answer(rt, &error),
    }
}

// The words of the command line. A word that isn't text is refused.
fn words_of<R: Env + AllocGlobal>(rt: &R) -> Result<Vec<String>, Unread> {
    match env::args(rt) {
        Ok(words) => Ok(words.collect(rt.alloc())?),
        Err(error) if error.kind() == io::ErrorKind::OutOfMemory => Err(Unread::Memory),
        Err(_) => Err(Unread::Refused),
    }
}

fn answer<R: Print + Eprint>(rt: &R, error: &Error) -> Result<Task, Unread> {
    match error.kind() {
        ErrorKind::DisplayHelp | ErrorKind::DisplayVersion => match error.print(rt) {
            Ok(()) => Ok(Task::Nothing),
            Err(_) => Err(Unread::Io),
        },
        ErrorKind::OutOfMemory => Err(Unread::Memory),
        _ => Err(Unread::Refused),
    }
}

fn command<'a>(alloc: Global) -> Result<Command<'a>, AllocError> {
    Command::new(alloc, "enet_relay")
        .about(
            "Hosts of ENet 1.3: a lab for them, what datagrams say, a server that relays chat, and a demonstration of it",
        )
        .version(version())
        .disable_help_subcommand(true)
        .subcommand_required(true)
        .subcommand(lab_command(alloc)?)?
        .subcommand(inspect_command(alloc)?)?
        .subcommand(serve_command(alloc)?)?
        .subcommand(demo_command(alloc)?)
}

fn lab_command<'a>(alloc: Global) -> Result<Command<'a>, AllocError> {
    Command::new(alloc, "lab")
        .about("Runs a script from standard input and writes one answer per line")
        .arg(explain(alloc))?
        .arg(script_picture(alloc))
}

fn explain<'a>(alloc: Global) -> Arg<'a> {
    Arg::new(alloc, "explain")
        .long("explain")
        .help(
            "Write each line, its answer, datagrams in words, what changed at its host, and what was expected of a bad line",
        )
        .action(ArgAction::SetTrue)
}

fn script_picture<'a>(alloc: Global) -> Arg<'a> {
    Arg::new(alloc, "timeline").long("timeline").help(
        "Draw what the hosts put out into this file, as an SVG, with what was never delivered",
    )
}

fn inspect_command<'a>(alloc: Global) -> Result<Command<'a>, AllocError> {
    Command::new(alloc, "inspect")
        .about(
            "Tells in words what datagrams say: a line of hex each, or a capture in pcap or pcapng format",
        )
        .arg(file(alloc))?
        .arg(full(alloc)?)?
        .arg(picture(alloc))?
        .arg(at(alloc)?)?
        .arg(connection(alloc)?)?
        .arg(channel(alloc)?)?
        .arg(from(alloc)?)?
        .arg(to(alloc)?)
}

fn serve_command<'a>(alloc: Global) -> Result<Command<'a>, AllocError> {
    let serve = Command::new(alloc, "serve")
        .about("Relays chat between the ENet clients that connect")
        .arg(port(alloc))?
        .arg(address(alloc))?
        .arg(peers(alloc))?
        .arg(channels(alloc))?
        .arg(queue_capacity(alloc)?)?
        .arg(max_packet(alloc))?
        .arg(max_waiting(alloc))?
        .arg(max_unsent(alloc)?)?
        .arg(turns(alloc))?
        .arg(forever(alloc)?)?
        .arg(logs(alloc))?
        .arg(threads(alloc))?
        .arg(no_secret(alloc))?
        .arg(control(alloc)?)?
        .arg(metrics(alloc)?)?;
    with_admission(alloc, serve)
}

fn demo_command<'a>(alloc: Global) -> Result<Command<'a>, AllocError> {
    Command::new(alloc, "demo")
        .about("Runs a server and its clients in one process, on 127.0.0.1")
        .arg(clients(alloc))?
        .arg(server_port(alloc))?
        .arg(turns(alloc))?
        .arg(demo_picture(alloc))
}

fn file<'a>(alloc: Global) -> Arg<'a> {
    Arg::new(alloc, "file").help(
        "The file to read; without it, or if it is -, standard input is read",
    )
}

fn picture<'a>(alloc: Global) -> Arg<'a> {
    Arg::new(alloc, "timeline").long("timeline").help(
        "Draw a capture's connections into this file, as an SVG, and tell in words what they hold",
    )
}

fn full<'a>(alloc: Global) -> Result<Arg<'a>, AllocError> {
    Arg::new(alloc, "full")
        .long("full")
        .help("Tell all bytes of each packet, not just the first 32")
        .action(ArgAction::SetTrue)
        .conflicts_with("timeline")
}

fn at<'a>(alloc: Global) -> Result<Arg<'a>, AllocError> {
    Arg::new(alloc, "at")
        .long("at")
        .help(
            "The end at which the capture was made: LEFT, whence the first datagram came, or RIGHT",
        )
        .requires_arg("timeline")
}

fn connection<'a>(alloc: Global) -> Result<Arg<'a>, AllocError> {
    Arg::new(alloc, "connection")
        .long("connection")
        .help("Draw and tell this connection alone, counted from 0")
        .value_parser(value_parser!(u32).range(0..=255))
        .requires_arg("timeline")
}

fn channel<'a>(alloc: Global) -> Result<Arg<'a>, AllocError> {
    number8(alloc, "channel", 0, 255)
        .help(
            "Draw and tell the commands of this channel alone; 255 is that of the connection itself",
        )
        .requires_arg("timeline")
}

fn from<'a>(alloc: Global) -> Result<Arg<'a>, AllocError> {
    Arg::new(alloc, "from")
        .long("from")
        .help("Begin so many seconds after the first packet, as 12.5")
        .requires_arg("timeline")
}

fn to<'a>(alloc: Global) -> Result<Arg<'a>, AllocError> {
    Arg::new(alloc, "to")
        .long("to")
        .help("End so many seconds after the first packet")
        .requires_arg("timeline")
}

fn demo_picture<'a>(alloc: Global) -> Arg<'a> {
    Arg::new(alloc, "timeline").long("timeline").help(
        "Draw what the clients' sockets sent and received into this file, as an SVG",
    )
}

fn clients<'a>(alloc: Global) -> Arg<'a> {
    number8(alloc, "clients", 1, 8)
        .help("How many clients there are")
        .default_value("2")
}

fn port<'a>(alloc: Global) -> Arg<'a> {
    number16(alloc, "port", 1, 65_535)
        .help("The UDP port to listen at")
        .required(true)
}

fn server_port<'a>(alloc: Global) -> Arg<'a> {
    number16(alloc, "port", 1, 65_535).help(
        "The UDP port of a server that is there, of the reference library too; without it one is started",
    )
}

fn address<'a>(alloc: Global) -> Arg<'a> {
    Arg::new(alloc, "address")
        .long("address")
        .help("The address to listen at, as a.b.c.d")
        .default_value("127.0.0.1")
}

fn peers<'a>(alloc: Global) -> Arg<'a> {
    number16(alloc, "peers", 1, 4_095)
        .help("How many clients it has room for")
        .default_value("32")
}

fn channels<'a>(alloc: Global) -> Arg<'a> {
    number8(alloc, "channels", 1, 255)
        .help("How many channels a client is granted at most")
        .default_value("2")
}

// `--room` is the option's earlier name.
fn queue_capacity<'a>(alloc: Global) -> Result<Arg<'a>, AllocError> {
    Arg::new(alloc, "queue-capacity")
        .long("queue-capacity")
        .help("How many places each of the two queues between its threads has")
        .value_parser(value_parser!(u32).range(1..=65_536))
        .default_value("4096")
        .alias("room")
}

fn max_packet<'a>(alloc: Global) -> Arg<'a> {
    number(alloc, "max-packet", 1, 33_554_432).help(
        "The greatest packet in bytes that a client may send [default: 262144 with --forever, else 33554432]",
    )
}

fn max_waiting<'a>(alloc: Global) -> Arg<'a> {
    number(alloc, "max-waiting", 1, 33_554_432).help(
        "Bytes of a client's packets at which no further one is taken [default: 1048576 with --forever, else 33554432]",
    )
}

fn max_unsent<'a>(alloc: Global) -> Result<Arg<'a>, AllocError> {
    number(alloc, "max-unsent", 2, 1_073_741_824)
        .help(
            "Bytes unsent or unacknowledged at which a client is full, as it is at 16384 commands or a 256th of these bytes, if that is more: it is ended at the next reliable packet, and gets no unreliable one. At least twice --max-packet [default: 16777216 or twice --max-packet with --forever, else no limit]",
        )
        .conflicts_with("turns")?
        .requires_arg("forever")
}

fn forever<'a>(alloc: Global) -> Result<Arg<'a>, AllocError> {
    Arg::new(alloc, "forever")
        .long("forever")
        .help("Serve until the process is stopped, and tell totals on standard error each minute")
        .action(ArgAction::SetTrue)
        .conflicts_with("turns")
}

fn logs<'a>(alloc: Global) -> Arg<'a> {
    Arg::new(alloc, "log")
        .long("log")
        .help(
            "Tell each connection, each end of one and, once a second, refused orders on standard error",
        )
        .action(ArgAction::SetTrue)
}

fn no_secret<'a>(alloc: Global) -> Arg<'a> {
    Arg::new(alloc, "no-secret")
        .long("no-secret")
        .help(
            "Serve without a secret of the system's, as ENet does: who forges an address can then connect in its name",
        )
        .action(ArgAction::SetTrue)
}

fn control<'a>(alloc: Global) -> Result<Arg<'a>, AllocError> {
    Arg::new(alloc, "control")
        .long("control")
        .help(
            "Do what lines of standard input say: stop, totals, peers, kick, ban, unban, say, log",
        )
        .action(ArgAction::SetTrue)
        .conflicts_with("turns")?
        .requires_arg("forever")
}

fn metrics<'a>(alloc: Global) -> Result<Arg<'a>, AllocError> {
    Arg::new(alloc, "metrics")
        .long("metrics")
        .help(
            "Tell figures over HTTP at this address and port, as 127.0.0.1:9100: /metrics and /healthz",
        )
        .conflicts_with("turns")?
        .requires_arg("forever")
}

fn threads<'a>(alloc: Global) -> Arg<'a> {
    number8(alloc, "threads", 1, 2).help(
        "How many threads serve: one does all, of two one relays. Without it one with --forever, else two",
    )
}

fn turns<'a>(alloc: Global) -> Arg<'a> {
    Arg::new(alloc, "turns")
        .long("turns")
        .help("How many turns each service takes")
        .value_parser(value_parser!(u32).range(0..=1_000_000))
        .default_value("1000")
}

fn number16<'a>(alloc: Global, name: &'a str, least: i64, most: i64) -> Arg<'a> {
    Arg::new(alloc, name)
        .long(name)
        .value_parser(value_parser!(u16).range(least..=most))
}

fn number8<'a>(alloc: Global, name: &'a str, least: i64, most: i64) -> Arg<'a> {
    Arg::new(alloc, name)
        .long(name)
        .value_parser(value_parser!(u8).range(least..=most))
}

// None where a word isn't one of ours, which the parser has refused before, or the address isn't one.
fn task_of(alloc: Global, found: &ArgMatches<'_>) -> Result<Option<Task>, Unread> {
    let Some((name, found)) = found.subcommand() else {
        return Ok(None);
    };
    match name {
        "lab" => Ok(Some(Task::Lab {
            is_explained: found.get_flag("explain"),
            picture: word_named(alloc, found, "timeline")?,
        })),
        "inspect" => Ok(inspect_options(alloc, found)?.map(Task::Inspect)),
        "serve" => match (read_admission(alloc, found)?, length_of(found)) {
            (Some(admission), Some(length)) => {
                let lengths = lengths_of(found, length)?;
                Ok(serve_options(found, admission, length, lengths).map(Task::Serve))
            }
            _ => Ok(None),
        },
        "demo" => Ok(demo_options(alloc, found)?.map(Task::Demo)),
        _ => Ok(None),
    }
}

// None where an end is neither, or a time isn't one.
fn inspect_options(
    alloc: Global,
    found: &ArgMatches<'_>,
) -> Result<Option<InspectOptions>, AllocError> {
    let Some(at) = end_of(found.get_str("at")) else {
        return Ok(None);
    };
    let Some(asked) = asked_of(found) else {
        return Ok(None);
    };
    Ok(Some(InspectOptions {
        file: file_named(alloc, found)?,
        picture: word_named(alloc, found, "timeline")?,
        at,
        asked,
        is_full: found.get_flag("full"),
    }))
}

fn asked_of(found: &ArgMatches<'_>) -> Option<Asked> {
    Some(Asked {
        connection: found.get_one::<u32>("connection"),
        channel: found.get_one::<u8>("channel"),
        from: time_of(found.get_str("from"))?,
        to: time_of(found.get_str("to"))?,
    })
}

// Some(None) where it wasn't said.
fn time_of(word: Option<&str>) -> Option<Option<u64>> {
    match word {
        None => Some(None),
        Some(word) => Some(Some(microseconds_of(word.as_bytes())?)),
    }
}

// Some(None) where it wasn't said.
fn end_of(word: Option<&str>) -> Option<Option<End>> {
    match word {
        None => Some(None),
        Some("LEFT" | "left") => Some(Some(End::Left)),
        Some("RIGHT" | "right") => Some(Some(End::Right)),
        Some(_) => None,
    }
}

// None, too, for `-`, which means standard input.
fn file_named(alloc: Global, found: &ArgMatches<'_>) -> Result<Option<String>, AllocError> {
    match found.get_str("file") {
        None | Some("-") => Ok(None),
        Some(path) => Ok(Some(String::from_str(alloc, path)?)),
    }
}

fn word_named(
    alloc: Global,
    found: &ArgMatches<'_>,
    name: &str,
) -> Result<Option<String>, AllocError> {
    match found.get_str(name) {
        Some(path) => Ok(Some(String::from_str(alloc, path)?)),
        None => Ok(None),
    }
}

// The greatest packet, and the bytes at which no further one is taken, if nothing is said of them: a server that serves on keeps little for
// each client.
fn usual_lengths(length: Length) -> (u32, u32) {
    match length {
        Length::Forever => (262_144, 1_048_576),
        Length::Turns(_) => (33_554_432, 33_554_432),
    }
}

// What is said of lengths, and of what isn't the usual. It may be refused where it is said how much may be unsent.
fn lengths_of(found: &ArgMatches<'_>, length: Length) -> Result<Lengths, Unread> {
    let (packet, waiting) = usual_lengths(length);
    let max_packet = found.get_one::<u32>("max-packet").unwrap_or(packet);
    Ok(Lengths {
        max_packet,
        max_waiting: found.get_one::<u32>("max-waiting").unwrap_or(waiting),
        max_unsent: unsent_of(found, length, max_packet)?,
    })
}

// How much is unsent for a client that is full, where the greatest packet has so many bytes: two of these always find room. Without
// `--forever` no client is ever full.
fn unsent_of(
    found: &ArgMatches<'_>,
    length: Length,
    max_packet: u32,
) -> Result<Option<Unsent>, Unread> {
    if let Length::Turns(_) = length {
        return Ok(None);
    }
    let least = max_packet.saturating_mul(2);
    let bytes = found
        .get_one::<u32>("max-unsent")
        .unwrap_or(UNSENT.max(least));
    if bytes < least {
        return Err(Unread::TooFewUnsent);
    }
    let commands = (bytes / 256).max(UNSENT_COMMANDS);
    Ok(Some(Unsent { bytes, commands }))
}

// None where the turns aren't a number, which the parser has refused before.
fn length_of(found: &ArgMatches<'_>) -> Option<Length> {
    if found.get_flag("forever") {
        return Some(Length::Forever);
    }
    Some(Length::Turns(found.get_one::<u32>("turns")?))
}

fn serve_options(
    found: &ArgMatches<'_>,
    admission: Admission,
    length: Length,
    lengths: Lengths,
) -> Option<ServeOptions> {
    let ip = found.get_one::<Ipv4Addr>("address")?.to_bits();
    let port = found.get_one::<u16>("port")?;
    Some(ServeOptions {
        address: Addr { ip, port },
        peers: found.get_one::<u16>("peers")?,
        channels: found.get_one::<u8>("channels")?,
        queue_capacity: found.get_one::<u32>("queue-capacity")?,
        max_packet: lengths.max_packet,
        max_waiting: lengths.max_waiting,
        max_unsent: lengths.max_unsent,
        length,
        logs: found.get_flag("log"),
        threads: match (found.get_one::<u8>("threads"), length) {
            (Some(1), _) | (None, Length::Forever) => ServerThreads::One,
            _ => ServerThreads::Two,
        },
        is_controlled: found.get_flag("control"),
        admission,
        has_secret: !found.get_flag("no-secret"),
        metrics: metrics_at(found)?,
    })
}

// Some(None) where it wasn't said; None where it is no address, or has no port.
fn metrics_at(found: &ArgMatches<'_>) -> Option<Option<SocketAddrV4>> {
    if found.get_str("metrics").is_none() {
        return Some(None);
    }
    let address = found.get_one::<SocketAddrV4>("metrics")?;
    if address.port() == 0 {
        return None;
    }
    Some(Some(address))
}

fn demo_options(alloc: Global, found: &ArgMatches<'_>) -> Result<Option<DemoOptions>, AllocError> {
    let (Some(clients), Some(turns)) = (
        found.get_one::<u8>("clients"),
        found.get_one::<u32>("turns"),
    ) else {
        return Ok(None);
    };
    Ok(Some(DemoOptions {
        clients,
        turns,
        port: found.get_one::<u16>("port"),
        picture: word_named(alloc, found, "timeline")?,
    }))
}
