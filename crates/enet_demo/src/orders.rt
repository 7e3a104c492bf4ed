//! What a client asks its service for.
ghost use Rattle.std.specs.Prelude.{◌≡◌, ◌<◌, ◌+◌, ◌^◌, IfOk, IfErr};
ghost use Rattle.enet_demo.specs.Plans.{chat, chats, connect, word_of};
ghost use Rattle.rand_chacha.specs.ChaCha.{word_at, key_of};

use bytes::Bytes;
use enet_codec::{Addr, PeerRef, Refusal, Secret};
use enet_submit::Order;
use rand_chacha::ChaCha20Rng;
use rand_core::SeedableRng;
use rand_core::utils::NextWord;
use rand_pcg::Pcg32;
use std::alloc::Global;
use std::collections::VecDeque;

/// How many channels a client asks for.
pub(crate) const CHANNELS: u8 = 2;

/// Where connect ids are drawn from without a secret; each client has a stream of its own.
const SEED: u64 = 0x656e_6574;

/// The first key stream from which connect ids are drawn with a secret: no peer of a host draws from it or from a later one.
const FIRST_STREAM: u64 = 1 << 63;

/// A client, by its number, and where the server is.
#[derive(Clone, Copy)]
pub(crate) struct Plan {
    /// 0 to 9.
    pub(crate) number: u8,
    pub(crate) server: Addr,
    /// By what its connect id and its host draw.
    pub(crate) secret: Option<Secret>,
}

/// The client's connect id.
fn connect_id(secret: Option<Secret>, number: u8) -> u32
    ensures { result ≡ word_of secret number }
{
    match secret {
        Some(secret) => drawn_id(secret, number),
        None => Pcg32::new(SEED, u64::from(number)).next_word(),
    }
}

/// The first word of the client's key stream.
fn drawn_id(secret: Secret, number: u8) -> u32
    ensures { result ≡ word_at 10 (key_of secret.key) (2 ^ 63 + number) 0 }
{
    let mut words = ChaCha20Rng::from_seed(secret.key);
    words.set_stream(FIRST_STREAM + u64::from(number));
    words.next_word()
}

/// The order by which the client connects.
pub(crate) fn connect_order(plan: Plan) -> Order
    ensures { result ≡ connect plan }
{
    Order::Connect {
        addr: plan.server,
        channels: CHANNELS,
        info: 0,
        word: connect_id(plan.secret, plan.number),
    }
}

/// The client's three chat packets, once it has this peer. E1 for want of memory.
pub(crate) fn chat_orders(
    alloc: Global,
    number: u8,
    peer: PeerRef,
) -> Result<VecDeque<Order>, Refusal>
    requires { number < 10 }
    ensures orders { IfOk result (λ orders. orders.items ≡ chats number peer) }
    ensures memory { IfErr result (λ why. why ≡ Refusal.Memory) }
{
    let orders = [
        chat_order(alloc, number, peer, 0)?,
        chat_order(alloc, number, peer, 1)?,
        chat_order(alloc, number, peer, 2)?,
    ];
    match Vec::from_array(alloc, orders) {
        Ok(orders) => Ok(VecDeque::from_vec(orders)),
        Err(_) => Err(Refusal::Memory),
    }
}

// A chat packet: the text `c<number> <packet>`.
fn chat_order(alloc: Global, number: u8, peer: PeerRef, packet: u8) -> Result<Order, Refusal>
    requires { (number < 10) × (packet < 10) }
    ensures order { IfOk result (λ order. order ≡ chat number peer packet) }
    ensures memory { IfErr result (λ why. why ≡ Refusal.Memory) }
{
    let text = [b'c', b'0' + number, b' ', b'0' + packet];
    match Bytes::copy_from_slice(alloc, &text) {
        Ok(body) => Ok(Order::Submit {
            peer,
            channel: 0,
            flags: 1,
            body,
        }),
        Err(_) => Err(Refusal::Memory),
    }
}
