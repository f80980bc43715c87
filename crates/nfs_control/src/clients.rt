//! The clients of a service, as it answers.

use nfs_loop::view::{ClientView, ServiceView};
use nfs_words::text::Text;
use nfs_xdr::link::Link;
use std::alloc::{AllocError, Global};

/// The answer to `clients`: the line `clients N`, and for each client `client ADDRESS connection=N connected=SECONDS
/// idle=SECONDS calls=N received=BYTES sent=BYTES pending=BYTES`.
pub(crate) fn clients_text<L: Link + Drop>(
    alloc: Global,
    view: &ServiceView<'_, L>,
) -> Result<Vec<u8>, AllocError> {
    let mut out = Text::new(alloc);
    out.put_field(b"clients ", view.standing.clients as u64);
    out.put(b"\n");
    for key in 0..view.keys() {
        if let Some(client) = view.client(key) {
            put_client(alloc, &mut out, &client)?;
        }
    }
    out.into_bytes()
}

fn put_client(alloc: Global, out: &mut Text, client: &ClientView) -> Result<(), AllocError> {
    let peer = client.peer;
    out.put(format!(in alloc; "client {peer}")?.as_bytes());
    out.put_field(b" connection=", client.number);
    out.put_field(b" connected=", client.connected);
    out.put_field(b" idle=", client.idle);
    out.put_field(b" calls=", client.calls);
    out.put_field(b" received=", client.traffic.received);
    out.put_field(b" sent=", client.traffic.sent);
    out.put_field(b" pending=", client.pending as u64);
    out.put(b"\n");
    Ok(())
}
