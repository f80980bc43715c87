//! The lines that report how a connection ended.
ghost use Rattle.std.specs.Prelude.{◌≡◌, ◌+◌, ◌≤◌, ◌++◌, [], codes};
ghost use Rattle.arrayvec.specs.ArrayVec.{array_vec_len};
ghost use Rattle.nfs_server.specs.FaultWords.{word_of_stream};
ghost use Rattle.nfs_serving.specs.Service.{end_text};

use nfs_server::serve_fault::ServeFault;
use nfs_serving::turn::End;
use nfs_text::line::{Line, put, put_number};

/// The line `connection K calls=N`, or `connection K fault=NAME` where a fault ended the connection. It
/// takes no memory.
pub fn end_line(number: u64, calls: u64, end: End) -> Line
    ensures { result.items ≡ end_text number calls end }
{
    let mut line = Line::new();
    put_number(&mut line, b"connection ", number);
    match end {
        End::Closed => put_number(&mut line, b" calls=", calls),
        End::Fault(fault) => put_fault(&mut line, fault),
    }
    put(&mut line, b"\n");
    line
}

// Why a connection ended.
fn put_fault(line: &mut Line, fault: ServeFault)
    requires { array_vec_len line.old + 30 ≤ 1024 }
    ensures items { line.new.items ≡ line.old.items ++ codes " fault=" ++ word_of_stream fault }
    ensures len { array_vec_len line.new ≤ array_vec_len line.old + 30 }
{
    put(line, b" fault=");
    put(line, fault.word().as_bytes());
}
