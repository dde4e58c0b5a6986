//! The messages of the NBD protocol, one by one: what is sent as its bytes, and what is read of bytes.
use nbd_wire::{
    Command, ErrorCode, OptionKind, OptionReply, decode_client_flags, decode_info_request,
    decode_option_head, decode_request, encode_block_size_info, encode_export, encode_export_info,
    encode_greeting, encode_option_reply, encode_simple_reply,
};
use std::alloc::Global;
use std::test::Fail;

/// What a server sends: by its name, and its bytes, field by field, as the protocol's text has them.
const SENT: [(&str, &str); 9] = [
    ("greeting", "4e42444d41474943 49484156454f5054 0003"),
    (
        "acknowledged",
        "0003e889045565a9 00000007 00000001 00000000",
    ),
    ("unknown", "0003e889045565a9 00000006 80000006 0000000a"),
    ("export", "0000000100000000 000d"),
    ("read only", "0000000000000200 000f"),
    ("export info", "0000 0000000000001000 000d"),
    ("block sizes", "0003 00000200 00001000 02000000"),
    ("done", "67446698 00000000 0102030405060708"),
    ("no space", "67446698 0000001c ffffffffffffffff"),
];

/// The bytes of what is sent by that name.
fn sent(alloc: Global, name: &str) -> Result<String, Fail> {
    let text = match name {
        "greeting" => hex::encode(alloc, encode_greeting()),
        "acknowledged" => hex::encode(alloc, encode_option_reply(7, OptionReply::Ack, 0)),
        "unknown" => hex::encode(alloc, encode_option_reply(6, OptionReply::Unknown, 10)),
        "export" => hex::encode(alloc, encode_export(1 << 32, false)),
        "read only" => hex::encode(alloc, encode_export(512, true)),
        "export info" => hex::encode(alloc, encode_export_info(4096, false)),
        "block sizes" => hex::encode(alloc, encode_block_size_info()),
        "done" => hex::encode(alloc, encode_simple_reply(None, 0x0102_0304_0506_0708)),
        _ => hex::encode(
            alloc,
            encode_simple_reply(Some(ErrorCode::NoSpace), u64::MAX),
        ),
    };
    Ok(text?)
}

#[test]
fn messages_have_their_bytes(rt: HostRuntime) -> Result<(), Fail> {
    let alloc = rt.alloc();
    for (name, fields) in &SENT {
        let bytes = fields.replace(alloc, " ", "")?;
        assert_eq!(rt; sent(alloc, name)?, bytes, "{name}");
    }
    Ok(())
}

#[test]
fn bytes_are_read_as_messages(rt: HostRuntime) {
    let flags = decode_client_flags(&[0, 0, 0, 3]);
    assert!(rt; matches!(flags, Some(flags) if flags.no_zeroes));
    assert!(rt; decode_client_flags(&[0, 0, 0, 4]).is_none());
    let head = decode_option_head(b"IHAVEOPT\0\0\0\x07\0\0\x01\0");
    assert!(rt; matches!(head, Some(head) if head.option == 7 && head.len == 256));
    assert!(rt; decode_option_head(b"IHAVEOPt\0\0\0\x07\0\0\x01\0").is_none());
    assert!(rt; matches!(OptionKind::of(7), Some(OptionKind::Go)));
    assert!(rt; OptionKind::of(4).is_none());
    let name = decode_info_request(b"\0\0\0\x01v\0\x01\0\x03");
    assert!(rt; name == Some(b"v".as_slice()));
    assert!(rt; decode_info_request(b"\0\0\0\x02v\0\0").is_none());
    let mut bytes = *b"\x25\x60\x95\x13\0\x01\0\x01cookie42\0\0\0\0\0\0\x10\0\0\0\x02\0";
    let head = decode_request(&bytes);
    assert!(rt;
        matches!(head, Some(head) if (head.flags, head.offset, head.len) == (1, 4096, 512))
    );
    assert!(rt;
        matches!(head, Some(head) if matches!(Command::of(head.kind), Some(Command::Write)))
    );
    bytes[3] = 0x14;
    assert!(rt; decode_request(&bytes).is_none());
    assert!(rt; Command::of(4).is_none());
}
