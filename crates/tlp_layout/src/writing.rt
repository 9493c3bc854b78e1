//! Writing TLPs.

ghost use Rattle.std.specs.Prelude.{◌≡◌, ◌+◌, ◌<◌, ◌≤◌, ◌++◌, length, vec_len, vec_capacity};
ghost use Rattle.arrayvec.specs.ArrayVec.{array_vec_len};
ghost use Rattle.byteorder.specs.Endian.{big_bytes};
ghost use Rattle.tlp_layout.specs.Head.{head_bytes, head_length, lead_bytes as lead_bytes_of, field_bytes};
ghost use Rattle.tlp_layout.specs.Head.{first_byte as first_byte_of, tag_of_fields, FitsLead, FitsFields, FitsHead};
ghost use Rattle.tlp_layout.specs.declared.head.Fields.TheVariants as variants;

use crate::head::{
    CompletionFields, ConfigFields, Fields, HeadView, Lead, MemoryFields, MessageFields,
};
use arrayvec::ArrayVec;
use byteorder::{BigEndian, ByteOrder};

/// The bytes of a header, up to 16.
type Header = ArrayVec<u8, 16>;

fn put(out: &mut Header, bytes: &[u8])
    requires { array_vec_len out.old + length bytes.now ≤ 16 }
    ensures items { out.new.items ≡ out.old.items ++ bytes.now }
    ensures len { array_vec_len out.new ≡ array_vec_len out.old + length bytes.now }
{
    let _ = out.try_extend_from_slice(bytes);
}

fn put_number(out: &mut Header, number: u16)
    requires { array_vec_len out.old + 2 ≤ 16 }
    ensures items { out.new.items ≡ out.old.items ++ big_bytes 2 number }
    ensures len { array_vec_len out.new ≡ array_vec_len out.old + 2 }
{
    let mut bytes = [0; 2];
    BigEndian::write_u16(&mut bytes, number);
    put(out, &bytes);
}

fn tag_field(fields: &Fields) -> u16
    ensures { result ≡ tag_of_fields fields.now }
{
    match fields {
        Fields::Memory(fields) => fields.tag,
        Fields::Config(fields) => fields.tag,
        Fields::Message(fields) => fields.tag,
        Fields::Completion(fields) => fields.tag,
    }
}

/// Bytes 1 to 3 of a header.
fn lead_bytes(lead: &Lead, tag: u16) -> [u8; 3]
    requires lead { FitsLead lead.now }
    requires tag { tag < 1024 }
    ensures { result ≡ lead_bytes_of lead.now tag }
{
    let second = (((tag >> 9) as u8) << 7)
        + (lead.tc << 4)
        + ((((tag >> 8) & 1) as u8) << 3)
        + ((lead.attr >> 2) << 2);
    let third = ((lead.attr & 3) << 4) + (lead.at << 2) + (lead.length >> 8) as u8;
    [second, third, (lead.length & 0xff) as u8]
}

fn first_byte(head: &HeadView) -> u8
    requires { FitsHead head.now }
    ensures { result ≡ first_byte_of head.now }
{
    let number = match &head.fields {
        Fields::Memory(_) => 0x00,
        Fields::Config(fields) => 0x04 + u8::from(fields.one),
        Fields::Message(fields) => 0x10 + fields.routing.number(),
        Fields::Completion(_) => 0x0a,
    };
    0x40 * u8::from(head.has_payload) + 0x20 * u8::from(head.lead.wide) + number
}

fn put_memory(out: &mut Header, lead: &Lead, fields: &MemoryFields)
    requires room { array_vec_len out.old + 12 ≤ 16 }
    requires fits { FitsFields lead.now (variants.Memory fields.now) }
    ensures { out.new.items ≡ out.old.items ++ field_bytes lead.now.wide (variants.Memory fields.now) }
{
    put_number(out, fields.requester);
    put(
        out,
        &[
            (fields.tag & 0xff) as u8,
            16 * fields.last_be + fields.first_be,
        ],
    );
    if lead.wide {
        let mut bytes = [0; 8];
        BigEndian::write_u64(&mut bytes, fields.address);
        put(out, &bytes);
    } else {
        let mut bytes = [0; 4];
        BigEndian::write_u32(&mut bytes, fields.address as u32);
        put(out, &bytes);
    }
}

fn put_config(out: &mut Header, lead: &Lead, fields: &ConfigFields)
    requires room { array_vec_len out.old + 12 ≤ 16 }
    requires fits { FitsFields lead.now (variants.Config fields.now) }
    ensures { out.new.items ≡ out.old.items ++ field_bytes lead.now.wide (variants.Config fields.now) }
{
    put_number(out, fields.requester);
    put(
        out,
        &[
            (fields.tag & 0xff) as u8,
            16 * fields.last_be + fields.first_be,
        ],
    );
    put_number(out, fields.destination);
    put(
        out,
        &[
            (fields.register / 64) as u8,
            (4 * (fields.register % 64)) as u8,
        ],
    );
}

fn put_message(out: &mut Header, lead: &Lead, fields: &MessageFields)
    requires room { array_vec_len out.old + 12 ≤ 16 }
    requires fits { FitsFields lead.now (variants.Message fields.now) }
    ensures { out.new.items ≡ out.old.items ++ field_bytes lead.now.wide (variants.Message fields.now) }
{
    put_number(out, fields.requester);
    put(out, &[(fields.tag & 0xff) as u8, fields.code]);
    put_number(out, fields.destination);
    put(out, &fields.kept);
}

fn put_completion(out: &mut Header, lead: &Lead, fields: &CompletionFields)
    requires room { array_vec_len out.old + 12 ≤ 16 }
    requires fits { FitsFields lead.now (variants.Completion fields.now) }
    ensures { out.new.items ≡ out.old.items ++ field_bytes lead.now.wide (variants.Completion fields.now) }
{
    put_number(out, fields.completer);
    let status = 32 * fields.status.number()
        + 16 * u8::from(fields.bcm)
        + (fields.count / 256) as u8;
    put(out, &[status, (fields.count % 256) as u8]);
    put_number(out, fields.requester);
    put(out, &[(fields.tag & 0xff) as u8, fields.lower]);
}

/// Appends what stands after the first double word.
fn put_fields(out: &mut Header, lead: &Lead, fields: &Fields)
    requires room { array_vec_len out.old + 12 ≤ 16 }
    requires fits { FitsFields lead.now fields.now }
    ensures { out.new.items ≡ out.old.items ++ field_bytes lead.now.wide fields.now }
{
    match fields {
        Fields::Memory(fields) => put_memory(out, lead, fields),
        Fields::Config(fields) => put_config(out, lead, fields),
        Fields::Message(fields) => put_message(out, lead, fields),
        Fields::Completion(fields) => put_completion(out, lead, fields),
    }
}

fn header_bytes(head: &HeadView) -> Header
    requires { FitsHead head.now }
    ensures { result.items ≡ head_bytes head.now }
{
    let mut out = ArrayVec::new();
    put(&mut out, &[first_byte(head)]);
    put(&mut out, &lead_bytes(&head.lead, tag_field(&head.fields)));
    put_fields(&mut out, &head.lead, &head.fields);
    out
}

/// Appends a header's one spelling, 12 or 16 bytes (PCI Express Base 6.0 section 2.2). That there is room for it and
/// that its fields are in range are the caller's conditions. It takes no memory.
#[tactic(auto, using(crate::proofs::Readings::head_sized))]
pub fn write_head(head: &HeadView, out: &mut Vec<u8>)
    requires fits { FitsHead head.now }
    requires room { vec_len out.old + head_length head.now ≤ vec_capacity out.old }
    ensures items { out.new.items ≡ out.old.items ++ head_bytes head.now }
    ensures len { vec_len out.new ≡ vec_len out.old + head_length head.now }
    ensures capacity { vec_capacity out.old ≤ vec_capacity out.new }
{
    append(out, header_bytes(head).as_slice());
}

/// Appends the bytes, for which there is room.
fn append(out: &mut Vec<u8>, bytes: &[u8])
    requires { vec_len out.old + length bytes.now ≤ vec_capacity out.old }
    ensures items { out.new.items ≡ out.old.items ++ bytes.now }
    ensures len { vec_len out.new ≡ vec_len out.old + length bytes.now }
    ensures capacity { vec_capacity out.old ≤ vec_capacity out.new }
{
    let _ = out.extend_from_slice(bytes);
}
