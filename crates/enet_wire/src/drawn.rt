//! What the system draws, so that nobody else knows it.

use enet_codec::Secret;
use libc::getentropy;

/// A secret for a host (`Config::secret`), drawn by the system (POSIX's getentropy). None where the system gives none.
pub fn system_secret() -> Option<Secret> {
    let mut key = [0; 32];
    if getentropy(&mut key) != 0 {
        return None;
    }
    Some(Secret { key })
}

/// A word to name a connection by (its connect id), drawn by the system (POSIX's getentropy): for each connection another one. None where
/// the system gives none.
pub fn system_word() -> Option<u32> {
    let mut word = [0; 4];
    if getentropy(&mut word) != 0 {
        return None;
    }
    Some(u32::from_le_bytes(word))
}
