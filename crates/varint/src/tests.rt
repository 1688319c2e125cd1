// Worked numbers: each is written, read back, and refused where its bytes are spoilt.
use crate::{len, read, write};
use fault::Fault;

#[test]
fn one_and_two_groups(rt: HostRuntime) {
    let mut out = [0xEE; 4];
    assert_eq!(rt; write(&mut out, 1, 127), Ok(2));
    assert_eq!(rt; out, [0xEE, 0x7F, 0xEE, 0xEE]);
    assert_eq!(rt; write(&mut out, 1, 128), Ok(3));
    assert_eq!(rt; out, [0xEE, 0x80, 0x01, 0xEE]);
    assert_eq!(rt; read(&out, 1), Ok((128, 3)));
    assert_eq!(rt; len(127), 1);
    assert_eq!(rt; len(128), 2);
}

#[test]
fn largest(rt: HostRuntime) {
    let mut out = [0; 5];
    assert_eq!(rt; write(&mut out, 0, 0xFFFF_FFFF), Ok(5));
    assert_eq!(rt; out, [0xFF, 0xFF, 0xFF, 0xFF, 0x0F]);
    assert_eq!(rt; read(&out, 0), Ok((0xFFFF_FFFF, 5)));
    out[4] = 0x10;
    assert_eq!(rt; read(&out, 0), Err(Fault::MalformedNumber { offset: 0 }));
}

#[test]
fn refused(rt: HostRuntime) {
    assert_eq!(rt; read(&[0x00, 0x04], 2), Err(Fault::EndOfBytes { len: 2 }));
    assert_eq!(rt; read(&[0x05, 0x80], 1), Err(Fault::EndOfBytes { len: 2 }));
    assert_eq!(rt; read(&[0x05], 9), Err(Fault::EndOfBytes { len: 1 }));
    assert_eq!(rt;
        read(&[0x80, 0x00], 0),
        Err(Fault::MalformedNumber { offset: 0 })
    );
    assert_eq!(rt;
        read(&[0xFF, 0xFF, 0xFF, 0xFF], 0),
        Err(Fault::EndOfBytes { len: 4 })
    );
    assert_eq!(rt;
        read(&[0xFF, 0xFF, 0xFF, 0xFF, 0x90], 0),
        Err(Fault::MalformedNumber { offset: 0 })
    );
}

#[test]
fn no_room(rt: HostRuntime) {
    let mut out = [7; 2];
    assert_eq!(rt;
        write(&mut out, 1, 300),
        Err(Fault::ShortOutput { needed: 3 })
    );
    assert_eq!(rt;
        write(&mut out, usize::MAX, 300),
        Err(Fault::ShortOutput { needed: usize::MAX })
    );
    assert_eq!(rt; out, [7, 7]);
}
