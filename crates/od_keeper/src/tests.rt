//! Which puts fail, what is kept then, and which calls are listed.
use crate::{KeepFault, Keeper, KeeperCall, MemKeeper, Stop};
use od_pattern::grammar::GrammarKind;
use od_row::rows::{DocRow, RoundRow, Rows, SessionRow};
use od_text::list::List;
use od_text::text::{Bytes, NoMemory, Text};
use std::alloc::Global;

fn no_rows(alloc: Global) -> Rows {
    Rows {
        docs: List::new(alloc),
        sessions: List::new(alloc),
        rounds: List::new(alloc),
    }
}

fn doc_row(alloc: Global) -> Result<DocRow, NoMemory> {
    Ok(DocRow {
        name: Text::from_str(alloc, "d")?,
        body: Bytes::from_slice(alloc, b"1\tdogs")?,
    })
}

fn session_row(alloc: Global) -> Result<SessionRow, NoMemory> {
    Ok(SessionRow {
        name: Text::from_str(alloc, "s")?,
        kind: GrammarKind::Query,
        text: Text::from_str(alloc, "dogs")?,
        documents: 1,
        limit: 5,
    })
}

fn round_row(alloc: Global) -> Result<RoundRow, NoMemory> {
    Ok(RoundRow {
        session: Text::from_str(alloc, "s")?,
        round: 1,
        body: Bytes::from_slice(alloc, b"\x01\x00")?,
    })
}

#[test]
fn a_listed_put_fails_and_its_row_is_kept_as_listed(rt: HostRuntime) -> Result<(), NoMemory> {
    let alloc = rt.alloc();
    let mut failing = Vec::new(alloc);
    failing.push((1, true))?;
    failing.push((2, false))?;
    let mut keeper = MemKeeper::new(alloc, no_rows(alloc), failing);
    let doc = doc_row(alloc)?;
    let session = session_row(alloc)?;
    let round = round_row(alloc)?;
    assert!(&rt;
        keeper.put_doc(alloc, &doc) == Ok(()),
        "a put that is not listed"
    );
    assert!(&rt;
        keeper.put_session(alloc, &session) == Err(KeepFault::Failed),
        "listed, kept"
    );
    assert!(&rt;
        keeper.put_round(alloc, &round) == Err(KeepFault::Failed),
        "listed, not kept"
    );
    assert!(&rt;
        keeper.put_round(alloc, &round) == Ok(()),
        "the put behind those listed"
    );
    let Ok(rows) = keeper.load(alloc) else {
        return Err(NoMemory);
    };
    let counts = (rows.docs.len(), rows.sessions.len(), rows.rounds.len());
    assert!(&rt; counts == (1, 1, 1), "what was kept");
    let calls = [
        KeeperCall::PutDoc,
        KeeperCall::PutSession,
        KeeperCall::PutRound,
        KeeperCall::PutRound,
        KeeperCall::Load,
    ];
    assert!(&rt;
        keeper.calls() == calls.as_slice(),
        "calls are listed in their order"
    );
    Ok(())
}

#[test]
fn a_stopped_store_answers_no_put_and_reopens_to_what_it_kept(
    rt: HostRuntime,
) -> Result<(), NoMemory> {
    let alloc = rt.alloc();
    let doc = doc_row(alloc)?;
    for (passed, kept, rows) in [(0, false, 0), (0, true, 1), (2, false, 2), (2, true, 3)] {
        let inner = MemKeeper::new(alloc, no_rows(alloc), Vec::new(alloc));
        let mut keeper = Stop::new(inner, passed, kept);
        for _ in 0..passed {
            assert!(&rt;
                keeper.put_doc(alloc, &doc) == Ok(()),
                "a put before the stop"
            );
        }
        for _ in 0..2 {
            let answer = keeper.put_doc(alloc, &doc);
            assert!(&rt;
                answer == Err(KeepFault::Failed),
                "a put at the stop, and one after it"
            );
        }
        assert!(&rt; keeper.load(alloc).is_err(), "a load after the stop");
        let reopened = keeper.reopened();
        assert!(&rt; reopened.rows().docs.len() == rows, "what was kept");
    }
    Ok(())
}
