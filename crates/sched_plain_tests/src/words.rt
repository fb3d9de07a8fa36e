use sched_plain::{
    Blob, Items, Name, NameFault, Text, TextFault, Token, TryCopy, ZoneName, print_id, read_id,
    shard_of,
};
use std::alloc::{AllocError, Global};
use std::test::Fail;

/// As many bytes `a` as are asked for, and the given last byte.
fn long_word(alloc: Global, length: usize, last: u8) -> Result<Vec<u8>, AllocError> {
    let mut bytes = vec![in alloc; b'a'; length]?;
    bytes.push(last)?;
    Ok(bytes)
}

#[test]
fn reads_names(rt: HostRuntime) -> Result<(), Fail> {
    let alloc = rt.alloc();
    for text in ["a", "Z09-_.", "once", "."] {
        let name = Name::read(alloc, text.as_bytes()).ok().expect(&rt, text);
        assert_eq!(rt; name.as_str(), text);
        let copy = name.copy()?;
        assert!(rt; copy == name);
    }
    let bad = [
        ("/bc", 0),
        ("a/c", 1),
        ("ab/", 2),
        ("a b", 1),
        ("ab\u{e9}", 2),
        ("a+b", 1),
    ];
    for (text, at) in bad {
        assert_eq!(rt;
            Name::read(alloc, text.as_bytes()).err(),
            Some(NameFault::BadByte { at }),
            "{text}"
        );
    }
    assert_eq!(rt; Name::read(alloc, b"").err(), Some(NameFault::Empty));
    let most = long_word(alloc, 63, b'a')?;
    assert!(rt; Name::read(alloc, most.as_slice()).is_ok());
    let long = long_word(alloc, 64, b'/')?;
    assert_eq!(rt;
        Name::read(alloc, long.as_slice()).err(),
        Some(NameFault::Long { len: 65 })
    );
    Ok(())
}

#[test]
fn reads_tokens_and_zone_names(rt: HostRuntime) -> Result<(), Fail> {
    let alloc = rt.alloc();
    let token = Token::read(alloc, b"2f1c9d2e-3b1a-4c55-9a0e-0f2a6c1d7e11")
        .ok()
        .expect(&rt, "a token");
    assert!(rt; token.copy()? == token);
    assert_eq!(rt;
        Token::read(alloc, b"a.b").err(),
        Some(NameFault::BadByte { at: 1 })
    );
    assert_eq!(rt; Token::read(alloc, b"").err(), Some(NameFault::Empty));
    let long = long_word(alloc, 64, b'.')?;
    assert_eq!(rt;
        Token::read(alloc, long.as_slice()).err(),
        Some(NameFault::Long { len: 65 })
    );
    for text in [
        "UTC",
        "America/New_York",
        "Etc/GMT+5",
        "a/b/c",
        "America/Port-au-Prince",
    ] {
        let zone = ZoneName::read(alloc, text.as_bytes())
            .ok()
            .expect(&rt, text);
        assert_eq!(rt; zone.as_str(), text);
        assert!(rt; zone.copy()? == zone);
    }
    let bad = [
        ("/UTC", 0),
        ("UTC/", 3),
        ("a//b", 2),
        ("/", 0),
        ("a.b", 1),
        ("a b/", 1),
        ("a//", 2),
    ];
    for (text, at) in bad {
        let read = ZoneName::read(alloc, text.as_bytes()).err();
        assert_eq!(rt; read, Some(NameFault::BadByte { at }), "{text}");
    }
    assert_eq!(rt; ZoneName::read(alloc, b"").err(), Some(NameFault::Empty));
    let most = long_word(alloc, 49, b'a')?;
    assert!(rt; ZoneName::read(alloc, most.as_slice()).is_ok());
    let long = long_word(alloc, 50, b'/')?;
    assert_eq!(rt;
        ZoneName::read(alloc, long.as_slice()).err(),
        Some(NameFault::Long { len: 51 })
    );
    Ok(())
}

#[test]
fn reads_texts(rt: HostRuntime) -> Result<(), Fail> {
    let alloc = rt.alloc();
    let text = Text::read(alloc, "gr\u{fc}n".as_bytes())
        .ok()
        .expect(&rt, "a text");
    assert_eq!(rt; text.as_str(), "gr\u{fc}n");
    assert!(rt; text.copy()? == text);
    let bad = [(b"\xffab", 0), (b"a\xffb", 1), (b"ab\xc3", 2)];
    for (bytes, at) in bad {
        assert_eq!(rt;
            Text::read(alloc, bytes).err(),
            Some(TextFault::BadByte { at })
        );
    }
    Ok(())
}

#[test]
fn prints_and_reads_ids(rt: HostRuntime) {
    let rows = [
        (1, 1000, "0000000100000000000003e8"),
        (1, 1_767_226_200, "00000001000000006955bb58"),
        (0, 0, "000000000000000000000000"),
        (
            4_294_967_295,
            18_446_744_073_709_551_615,
            "ffffffffffffffffffffffff",
        ),
    ];
    for (inc, instant, text) in rows {
        assert_eq!(rt; print_id(inc, instant).as_slice(), text.as_bytes());
        assert_eq!(rt; read_id(text.as_bytes()), Some((inc, instant)));
    }
    let none = [
        "",
        "0000000100000000000003E8",
        "0000000100000000000003e",
        "0000000100000000000003e80",
        "g000000100000000000003e8",
        "0000000100000000000003e ",
    ];
    for text in none {
        assert_eq!(rt; read_id(text.as_bytes()), None, "{text}");
    }
    assert_eq!(rt; shard_of(8), 0);
    assert_eq!(rt; shard_of(4_294_967_295), 7);
}

#[test]
fn copies_lists(rt: HostRuntime) -> Result<(), Fail> {
    let alloc = rt.alloc();
    let mut blobs = Items::new(alloc);
    blobs.push(Blob::from_vec(vec![in alloc; 1u8, 2]?))?;
    blobs.push(Blob::from_vec(Vec::new(alloc)))?;
    let copy = blobs.copy()?;
    assert_eq!(rt; copy.len(), 2);
    assert_eq!(rt; copy.as_slice()[0].as_bytes(), [1, 2].as_slice());
    assert!(rt; copy.as_slice()[1].is_empty());
    Ok(())
}
