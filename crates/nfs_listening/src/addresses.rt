//! The addresses at which a service listens, as the words ask for them.
ghost use Rattle.std.specs.Prelude.{◌≡◌, ◌≢◌, ◌⊎◌, [], Some, length, slice_get};
ghost use Rattle.nfs_listening.specs.Opening.{AreLoopbacks, IsFirstOpen, IsLocalhost};

use nfs_command_line::serve::Serve;
use nfs_lines::rule_names::first_unknown;
use std::alloc::{AllocError, Global};
use std::net::{IpAddr, Ipv4Addr, SocketAddr};

/// The addresses that the words ask to listen at, in their order; none, which is reported on standard error, where one
/// of them is no address, or a rule of `--audit-skip` is unknown. Refused without memory.
pub fn addresses_of<R: Eprint>(
    rt: &R,
    alloc: Global,
    words: Serve<'_, '_>,
) -> Result<Option<Vec<IpAddr>>, AllocError> {
    if let Some(name) = words.audit_skip().and_then(first_unknown) {
        let _ = eprintln!(rt;
            "error: invalid value for '--audit-skip <RULES>': there is no rule '{name}'; docs/PROTOCOL.md names them"
        );
        return Ok(None);
    }
    let mut addresses = Vec::new(alloc);
    for listen in words.listen() {
        let Some(address) = address_of(rt, listen) else {
            return Ok(None);
        };
        addresses.push(address)?;
    }
    Ok(Some(addresses))
}

/// Whether what the words give for metrics is an address with a port, if they give anything. Where it isn't, that is
/// reported on standard error.
pub fn has_metrics_address<R: Eprint>(rt: &R, words: Serve<'_, '_>) -> bool {
    match words.metrics() {
        Some(text) if text.parse::<SocketAddr>().is_err() => {
            let _ = eprintln!(rt;
                "error: invalid value '{text}' for '--metrics <ADDRESS:PORT>': it is not an address and a port, such as 127.0.0.1:9049"
            );
            false
        }
        _ => true,
    }
}

/// The first address that other machines can reach; where there is none, the first; of no addresses, 127.0.0.1.
pub fn most_open(addresses: &[IpAddr]) -> IpAddr
    ensures reachable { IsFirstOpen addresses.now result ⊎ AreLoopbacks addresses.now (length addresses.now) }
    ensures first { AreLoopbacks addresses.now (length addresses.now) → addresses.now ≢ [] → slice_get addresses.now 0 ≡ Some result }
    ensures none { addresses.now ≡ [] → IsLocalhost result }
{
    for address in addresses {
        if !address.is_loopback() {
            return *address;
        }
    }
    let first = addresses.first().copied();
    first.unwrap_or(IpAddr::V4(Ipv4Addr::LOCALHOST))
}

// The address that a word is; none, which is reported, where it is no address.
fn address_of<R: Eprint>(rt: &R, listen: &str) -> Option<IpAddr> {
    if let Ok(ip) = listen.parse::<IpAddr>() {
        return Some(ip);
    }
    let reason = match listen.parse::<SocketAddr>() {
        Ok(_) => "it has a port, which --port gives",
        Err(_) => "it is not an IPv4 or IPv6 address",
    };
    let _ = eprintln!(rt; "error: invalid value '{listen}' for '--listen <ADDRESS>': {reason}");
    None
}
