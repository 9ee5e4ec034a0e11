//! With ample memory rows are copied, and the copy has what its original has.
use crate::rows::{DocRow, RoundRow, Rows, SessionRow};
use od_pattern::grammar::GrammarKind;
use od_text::list::List;
use od_text::text::{Bytes, Copied, NoMemory, Text};
use std::alloc::Global;

fn doc_row(alloc: Global) -> Result<DocRow, NoMemory> {
    Ok(DocRow {
        name: Text::from_str(alloc, "d")?,
        body: Bytes::from_slice(alloc, b"1\tdogs")?,
    })
}

fn session_row(alloc: Global) -> Result<SessionRow, NoMemory> {
    Ok(SessionRow {
        name: Text::from_str(alloc, "s")?,
        kind: GrammarKind::Query,
        text: Text::from_str(alloc, "dogs")?,
        documents: 1,
        limit: 5,
    })
}

fn round_row(alloc: Global) -> Result<RoundRow, NoMemory> {
    Ok(RoundRow {
        session: Text::from_str(alloc, "s")?,
        round: 1,
        body: Bytes::from_slice(alloc, b"\x01\x00")?,
    })
}

fn one_of<T: Drop>(alloc: Global, row: T) -> Result<List<T>, NoMemory> {
    let mut rows = List::new(alloc);
    rows.push(row)?;
    Ok(rows)
}

fn all_rows(alloc: Global) -> Result<Rows, NoMemory> {
    Ok(Rows {
        docs: one_of(alloc, doc_row(alloc)?)?,
        sessions: one_of(alloc, session_row(alloc)?)?,
        rounds: one_of(alloc, round_row(alloc)?)?,
    })
}

#[test]
fn rows_are_copied(rt: HostRuntime) -> Result<(), NoMemory> {
    let rows = all_rows(rt.alloc())?;
    let twin = rows.copy(rt.alloc())?;
    for (row, other) in rows.docs.get().iter().zip(twin.docs.get()) {
        assert!(&rt; row.name.same(&other.name) && row.body.same(&other.body));
    }
    for (row, other) in rows.rounds.get().iter().zip(twin.rounds.get()) {
        assert!(&rt; row.session.same(&other.session) && row.body.same(&other.body));
        assert!(&rt; other.round == 1);
    }
    for row in twin.sessions.get() {
        assert!(&rt; row.kind == GrammarKind::Query && row.documents == 1 && row.limit == 5);
    }
    assert!(&rt; twin.docs.len() == 1 && twin.sessions.len() == 1 && twin.rounds.len() == 1);
    Ok(())
}
