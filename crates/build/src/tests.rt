// Small builds worked by hand.
ghost use Rattle.std.proofs.Common.{rules};

use crate::{Member, build};
use codes::Code;
use fault::Fault;
use slots::Slot;
use std::test::Fail;

// A code of two plain halves.
#[derive(Clone, Copy)]
struct Pair {
    front: u32,
    back: u32,
}

impl Code for Pair {
    ghost front_of = { λ x. x.front };

    ghost back_of = { λ x. x.back };

    ghost same = { Prim.search rules };

    fn front(&self) -> u32 {
        self.front
    }

    fn back(&self) -> u32 {
        self.back
    }
}

fn member(front: u32, back: u32, entry: u32) -> Member<Pair, u32> {
    Member {
        code: Pair { front, back },
        entry,
    }
}

// A slot as it may stand before a build.
fn slot(full: bool) -> Slot<Pair, u32> {
    Slot {
        full,
        code: Pair { front: 8, back: 8 },
        entry: 5,
    }
}

// Whether a slot is full, and what it holds.
fn shown(slot: Slot<Pair, u32>) -> (bool, u32, u32, u32) {
    (slot.full, slot.code.front, slot.code.back, slot.entry)
}

#[test]
fn one_front_half(rt: HostRuntime) {
    let members = [member(3, 5, 300), member(3, 9, 7)];
    let mut first = [6; 17];
    let mut second = [6; 16];
    let mut slots = [slot(true); 17];
    let mut work = [1; 130];
    assert_eq!(rt;
        build(4, &members, &mut first, &mut second, &mut slots, &mut work),
        Ok((2, 0))
    );
    assert_eq!(rt; first, [0, 0, 0, 0, 0, 0, 0, 0, 0, 0, 0, 0, 0, 0, 0, 0, 6]);
    assert_eq!(rt; second, [0, 0, 0, 0, 0, 0, 0, 0, 0, 1, 0, 0, 0, 0, 0, 0]);
    assert_eq!(rt; shown(slots[3]), (true, 3, 5, 300));
    assert_eq!(rt; shown(slots[2]), (true, 3, 9, 7));
    assert_eq!(rt; shown(slots[0]), (false, 8, 8, 5));
    assert_eq!(rt; shown(slots[16]), (true, 8, 8, 5));
    assert_eq!(rt; work[0], 0);
    assert_eq!(rt; work[129], 0);
}

#[test]
fn one_back_half(rt: HostRuntime) {
    let members = [member(1, 7, 10), member(2, 7, 20)];
    let mut first = [6; 16];
    let mut second = [6; 16];
    let mut slots = [slot(false); 16];
    let mut work = [0; 128];
    assert_eq!(rt;
        build(4, &members, &mut first, &mut second, &mut slots, &mut work),
        Ok((2, 0))
    );
    assert_eq!(rt; first, [0, 0, 1, 0, 0, 0, 0, 0, 0, 0, 0, 0, 0, 0, 0, 0]);
    assert_eq!(rt; second, [0; 16]);
    assert_eq!(rt; shown(slots[1]), (true, 1, 7, 10));
    assert_eq!(rt; shown(slots[2]), (true, 2, 7, 20));
}

#[test]
fn four_codes(rt: HostRuntime) {
    let members = [
        member(0, 0, 1),
        member(0, 1, 2),
        member(1, 0, 3),
        member(1, 1, 4),
    ];
    let mut first = [6; 32];
    let mut second = [6; 32];
    let mut slots = [slot(false); 32];
    let mut work = [0; 256];
    assert_eq!(rt;
        build(5, &members, &mut first, &mut second, &mut slots, &mut work),
        Ok((4, 0))
    );
    assert_eq!(rt; (first[0], first[1], first[2], first[3]), (0, 2, 0, 0));
    assert_eq!(rt; (second[0], second[1], second[2], second[3]), (0, 1, 2, 3));
    assert_eq!(rt; shown(slots[0]), (true, 0, 0, 1));
    assert_eq!(rt; shown(slots[1]), (true, 0, 1, 2));
    assert_eq!(rt; shown(slots[3]), (true, 1, 0, 3));
    assert_eq!(rt; shown(slots[2]), (true, 1, 1, 4));
}

#[test]
fn refused(rt: HostRuntime) {
    let (x, y) = (member(1, 2, 1), member(2, 1, 2));
    let mut first = [6; 32];
    let mut second = [6; 32];
    let mut slots = [slot(true); 32];
    let mut work = [1; 256];
    assert_eq!(rt;
        build(
            4,
            &[x, y, x],
            &mut first,
            &mut second,
            &mut slots,
            &mut work,
        ),
        Err(Fault::TooManyMembers { members: 3 })
    );
    assert_eq!(rt;
        build(
            5,
            &[x, y, y, x],
            &mut first,
            &mut second,
            &mut slots,
            &mut work,
        ),
        Err(Fault::RepeatedCode { position: 2 })
    );
    assert_eq!(rt; (first[0], second[31], work[255]), (6, 6, 0));
    assert_eq!(rt; shown(slots[1]), (true, 8, 8, 5));
}

// The largest half width takes 8,192 codes, and not one more.
#[test]
fn largest(rt: HostRuntime) -> Result<(), Fail> {
    let heap = rt.alloc();
    let mut members: Vec<Member<Pair, u32>> = (0..8192u32)
        .map(|i| member(i / 100, i % 100, i))
        .collect(heap)?;
    let mut slots = vec![in heap; slot(false); 65_536]?;
    let mut first = vec![in heap; 0; 65_536]?;
    let mut second = vec![in heap; 0; 65_536]?;
    let mut work = vec![in heap; 0; 524_288]?;
    let built = build(
        16,
        members.as_slice(),
        first.as_mut_slice(),
        second.as_mut_slice(),
        slots.as_mut_slice(),
        work.as_mut_slice(),
    );
    assert!(rt; built.is_ok());
    members.push(member(0, 100, 0))?;
    assert_eq!(rt;
        build(
            16,
            members.as_slice(),
            first.as_mut_slice(),
            second.as_mut_slice(),
            slots.as_mut_slice(),
            work.as_mut_slice(),
        ),
        Err(Fault::TooManyMembers { members: 8193 })
    );
    Ok(())
}
