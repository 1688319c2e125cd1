// Examples: a day of calls on the first catalogue, and the next day.
use crate::{Answer, Call, run, serve};
use build::Member;
use codes::{Pattern, Shelf};
use fault::Fault;
use slots::Slot;

#[test]
fn two_days(rt: HostRuntime) {
    let a = Pattern::new(3, 5);
    let b = Pattern::new(4, 5);
    let members = [
        Member {
            code: a,
            entry: Shelf(300),
        },
        Member {
            code: Pattern::new(3, 9),
            entry: Shelf(7),
        },
    ];
    let mut first = [0; 16];
    let mut second = [0; 16];
    let mut slots = [Slot {
        full: false,
        code: Pattern::new(0, 0),
        entry: Shelf(0),
    }; 16];
    let mut work = [1; 128];
    let calls = [
        Call::Lookup(b),
        Call::Insert(b, Shelf(12)),
        Call::Insert(Pattern::new(2, 5), Shelf(1)),
        Call::Replace(a, Shelf(301)),
    ];
    let mut answers = [Ok(Answer::LookedUp(None)); 4];
    assert_eq!(rt;
        serve(
            4,
            &members,
            &mut first,
            &mut second,
            &mut slots,
            &mut work,
            &calls,
            &mut answers,
        ),
        Ok((2, 0))
    );
    assert_eq!(rt;
        answers,
        [
            Ok(Answer::LookedUp(None)),
            Ok(Answer::Inserted(4)),
            Err(Fault::PlaceTaken { place: 2 }),
            Ok(Answer::Replaced(Shelf(300))),
        ]
    );
    let calls = [Call::Remove(b), Call::Lookup(a)];
    assert_eq!(rt;
        run(4, &first, &second, &mut slots, &calls, &mut answers[0..1]),
        Err(Fault::ShortOutput { needed: 2 })
    );
    assert_eq!(rt;
        run(4, &first, &second, &mut slots, &calls, &mut answers),
        Ok(())
    );
    assert_eq!(rt; answers[0], Ok(Answer::Removed(Shelf(12))));
    assert_eq!(rt; answers[1], Ok(Answer::LookedUp(Some((3, Shelf(301))))));
}
