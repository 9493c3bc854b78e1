//! Writing an object.

ghost use Rattle.std.specs.Prelude.{◌≡◌, ◌+◌, ◌≤◌, ◌++◌, length, vec_len, vec_capacity};
ghost use Rattle.std.specs.Int.{w64, to_le_bytes};
ghost use Rattle.key_messages.specs.Objects.{object_spelling};

use crate::object::KmView;

/// Appends the bytes, for which there is room.
fn append(out: &mut Vec<u8>, bytes: &[u8])
    requires { vec_len out.old + length bytes.now ≤ vec_capacity out.old }
    ensures items { out.new.items ≡ out.old.items ++ bytes.now }
    ensures len { vec_len out.new ≡ vec_len out.old + length bytes.now }
    ensures capacity { vec_capacity out.old ≤ vec_capacity out.new }
{
    let _ = out.extend_from_slice(bytes);
}

/// Appends a key and its initial counter.
fn append_key(out: &mut Vec<u8>, key: [u8; 32], counter: u64)
    requires { vec_len out.old + 40 ≤ vec_capacity out.old }
    ensures items { out.new.items ≡ out.old.items ++ (key ++ to_le_bytes w64 counter) }
    ensures capacity { vec_capacity out.old ≤ vec_capacity out.new }
{
    append(out, &key);
    append(out, &counter.to_le_bytes());
}

/// Appends the object's bytes, with 0 in the reserved ones. `out` has room for them, so it takes no memory
/// (this profile).
pub fn km_write(object: &KmView, out: &mut Vec<u8>)
    requires { vec_len out.old + length (object_spelling object.now) ≤ vec_capacity out.old }
    ensures items { out.new.items ≡ out.old.items ++ object_spelling object.now }
    ensures capacity { vec_capacity out.old ≤ vec_capacity out.new }
{
    let object = *object;
    match object {
        KmView::Query { port } => append(out, &[0, 0, 0, port]),
        KmView::QueryResp {
            port,
            device_function,
            bus,
            segment,
            highest,
        } => append(
            out,
            &[0, 1, 0, port, device_function, bus, segment, highest],
        ),
        KmView::KeyProg {
            stream,
            selector,
            port,
            key,
            counter,
        } => {
            append(out, &[0, 2, 0, 0, stream, 0, selector, port]);
            append_key(out, key, counter);
        }
        KmView::KpAck {
            stream,
            status,
            selector,
            port,
        } => append(out, &[0, 3, 0, 0, stream, status, selector, port]),
        KmView::SetGo {
            stream,
            selector,
            port,
        } => append(out, &[0, 4, 0, 0, stream, 0, selector, port]),
        KmView::SetStop {
            stream,
            selector,
            port,
        } => append(out, &[0, 5, 0, 0, stream, 0, selector, port]),
        KmView::GoStopAck {
            stream,
            selector,
            port,
        } => append(out, &[0, 6, 0, 0, stream, 0, selector, port]),
    }
}
