//! Volumes that are open to everybody.
use log::sink::Console;
use log::{Level, Logged, warn};
use nfs_advice::warnings::is_open;
use nfs_load::loaded::Loaded;
use std::net::IpAddr;

/// Warns of each volume in which whoever reaches the address is the superuser: it is exported to
/// every address with `no_root_squash`, and the address isn't of this machine alone.
pub(crate) fn warn_of_open_volumes<R: Eprint>(rt: &R, address: IpAddr, loaded: &Loaded) {
    if address.is_loopback() {
        return;
    }
    let logged = Logged::new(rt, Level::Warn, Console(rt));
    for index in 0..loaded.tree.volumes() {
        if is_open(loaded.table.patterns(index)) {
            let number = index.saturating_add(1);
            warn!(&logged; "volume {number} is exported to * with no_root_squash, and other machines can reach {address}: anyone there is root in it");
        }
    }
}
