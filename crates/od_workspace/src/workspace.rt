//! The one-thread object as it runs.
ghost use Rattle.std.specs.Prelude.{◌≡◌, ◌-◌, ◌∷◌, [], ◌++◌, List as Seq, Some, IfOk, OnOk, OnErr, length, map, take};
ghost use Rattle.std.specs.Arc.{arc_value};
ghost use Rattle.std.specs.List.{AllZip};
ghost use Rattle.od_document.specs.declared.doc.Doc.{Doc as TheDoc};
ghost use Rattle.od_workspace.specs.Workspaces.Changes.{IsNextRound};
ghost use Rattle.od_workspace.specs.Workspaces.Kept.{StandsAlone};
ghost use Rattle.od_workspace.specs.Workspaces.Sessions.{IsRunning};

use change::{Answer, Change};
use od_command::history::{Command, Refusal, Reply};
use od_committed::Committed;
use od_conllu::{ReadDocFault, read_doc};
use od_document::conllu::ConlluFault;
use od_document::doc::Doc;
use od_extraction::mention::Mention;
use od_heads::Heads;
use od_io::Runner;
use od_mentions::State;
use od_names::names::Names;
use od_pattern::grammar::Head;
use od_rounds::Session;
use od_segment::{Segment, View};
use od_session::object::{ALL_BYTES, ALL_DOCUMENTS, SESSION_ROUNDS, SESSIONS, SessionState};
use od_text::list::List;
use od_text::text::{Bytes, Copied, NoMemory, Text};
use session::{held, next, printed, resumed, stepped};
use std::alloc::Global;
use std::marker::Model;
use std::mem;
use std::sync::Arc;

pub mod change;
mod session;

/// The committed documents and the sessions. The bytes that the documents were read from and their sentences are counted,
/// and a document or a session is found by its name. Beside the state of each session stands the session that runs.
#[derive(Drop)]
pub struct Workspace {
    docs: Vec<Committed>,
    doc_names: Names,
    bytes: u64,
    sentences: u64,
    sessions: Vec<SessionState>,
    running: Vec<Session>,
    session_names: Names,
}

impl Model for Workspace {
    ghost use Rattle.od_session.specs.declared.object.OneThread.{OneThread};
    ghost use Rattle.od_workspace.specs.Workspaces.Kept.{IsWorkspace};

    ghost Value = { OneThread };

    ghost view = { λ s. record { docs = s.docs.items; sessions = s.sessions.items } };

    ghost invariant = { λ s. IsWorkspace s.docs.items s.doc_names s.bytes s.sentences
        s.sessions.items s.running.items s.session_names };
}

impl Workspace {
    ghost use Rattle.std.specs.Prelude.{◌≡◌, ◌<◌, MatchResult, MatchOption, IfOk, OnOk, OnErr, ℕ, List as Seq, [], ◌∷◌, ◌++◌, length, Ok, Err, Some, None, false, slice_get, option_map};
    ghost use Rattle.od_session.specs.declared.object.SessionState.{SessionState};
    ghost use Rattle.od_pattern.specs.declared.grammar.Head.{Head};
    ghost use Rattle.od_document.specs.Faults.{doc_fault};
    ghost use Rattle.od_document.specs.Reading.{Reads};
    ghost use Rattle.od_index.specs.Segments.{Tiles};
    ghost use Rattle.od_session.specs.Parts.{nothing, size_of, has_doc, is_full, session_of, has_session};
    ghost use Rattle.od_model.specs.Object.Replies.{held};
    ghost use Rattle.od_workspace.specs.Workspaces.Changes.{changed, ChangesAt, Fits, IsAnswer, IsNextRound, SessionAt};
    ghost use Rattle.od_workspace.specs.Workspaces.Sessions.{IsRunning};

    /// No document and no session.
    pub fn new(alloc: Global) -> Workspace
        ensures { result ≡ nothing }
    {
        Workspace {
            docs: Vec::new(alloc),
            doc_names: Names::new(alloc),
            bytes: 0,
            sentences: 0,
            sessions: Vec::new(alloc),
            running: Vec::new(alloc),
            session_names: Names::new(alloc),
        }
    }

    /// The committed documents.
    pub fn docs(&self) -> &[Committed]
        ensures { result.now ≡ self.now.docs }
    {
        &self.docs
    }

    /// The answer to a command of a caller, and the change that it makes. Nothing is changed yet.
    pub fn answer<R: Runner>(
        &self,
        alloc: Global,
        heads: &mut Heads<R>,
        caller: u32,
        command: &Command,
    ) -> Result<Answer, NoMemory>
        ensures answer { IfOk result (IsAnswer heads.old self.now caller command.now) }
        ensures same { heads.new ≡ heads.old }
    {
        match command {
            Command::AddDoc { name, body } => self.answer_doc(alloc, name, body),
            Command::OpenSession {
                name,
                grammar,
                limit,
            } => self.answer_open(alloc, heads, caller, name, grammar, *limit),
            Command::Step { name } => self.answer_step(alloc, caller, name),
            Command::Resume { name } => Ok(self.answer_resume(heads, caller, name)),
            Command::Print { name } => Ok(self.answer_print(caller, name)),
            Command::Release { name } => Ok(self.answer_release(caller, name)),
            Command::Settle => self.answer_settle(alloc),
        }
    }

    /// Makes the change; where memory is refused, nothing changes.
    pub fn change(&mut self, alloc: Global, change: Change) -> Result<(), NoMemory>
        requires { Fits self.old change }
        ensures ok { OnOk result (self.new ≡ changed self.old change) }
        ensures err { OnErr result (self.new ≡ self.old) }
    {
        match change {
            Change::Nothing => Ok(()),
            Change::Document(doc) => self.add_doc(alloc, doc),
            Change::Opening(state, running) => self.add_session(alloc, state, running),
            Change::Round { place, added } => self.add_round(alloc, place, added),
            Change::Holder { place, holder } => {
                self.hold(place, holder);
                Ok(())
            }
        }
    }

    /// Whether a document of the name is committed.
    fn has_doc(&self, name: &Text) -> bool
        ensures { result ≡ has_doc self.now name.now }
    {
        self.doc_names.place(name).is_some()
    }

    /// Whether a session has the name.
    fn has_session(&self, name: &Text) -> bool
        ensures { result ≡ has_session self.now name.now }
    {
        self.session_names.place(name).is_some()
    }

    /// Whether a document of this size is too much: so many documents are there, or all bodies would have too many bytes.
    fn is_full(&self, size: u32) -> bool
        ensures { result ≡ is_full self.now size }
    {
        ALL_DOCUMENTS as usize <= self.docs.len() || ALL_BYTES < self.bytes + size as u64
    }

    /// The refusal of a document where there is no room.
    fn full(&self) -> Refusal
        ensures { result ≡ Refusal.Full (length self.now.docs) (size_of self.now.docs) }
    {
        Refusal::Full {
            documents: self.docs.len() as u32,
            bytes: self.bytes,
        }
    }

    /// The place of the session of a name.
    fn place(&self, name: &Text) -> Option<usize>
        ensures { MatchOption result (session_of name.now self.now.sessions ≡ None)
            (λ i. (s : SessionState) × (slice_get self.now.sessions i ≡ Some s) × (session_of name.now self.now.sessions ≡ Some s) × ChangesAt name.now self.now.sessions i) }
    {
        self.session_names.place(name)
    }

    /// The place of the session of a name, where the caller holds it, or why not.
    fn held(&self, caller: u32, name: &Text) -> Result<usize, Refusal>
        ensures { MatchResult result
            (λ i. (s : SessionState) × (slice_get self.now.sessions i ≡ Some s) × (session_of name.now self.now.sessions ≡ Some s) × ChangesAt name.now self.now.sessions i × (held self.now caller name.now ≡ Ok s))
            (λ refusal. held self.now caller name.now ≡ Err refusal) }
    {
        let Some(i) = self.place(name) else {
            return Err(Refusal::NoSession);
        };
        held(self.state(i), caller)?;
        Ok(i)
    }

    /// The lists of a session's rounds.
    pub fn rounds_of(&self, name: &Text) -> Option<&[List<Mention>]>
        ensures { option_map (λ rounds. rounds.now) result ≡ option_map (λ s. s.rounds)
            (session_of name.now self.now.sessions) }
    {
        let i = self.place(name)?;
        Some(self.state(i).rounds.get())
    }

    /// One round more of the session, where the caller holds it and its rounds go on.
    fn answer_step(&self, alloc: Global, caller: u32, name: &Text) -> Result<Answer, NoMemory>
        ensures { IfOk result (λ answer. (heads : Seq Head)
            → IsAnswer heads self.now caller (Command.Step name.now) answer) }
    {
        let place = match self.held(caller, name) {
            Ok(place) => place,
            Err(refusal) => return Ok(Answer::refused(refusal)),
        };
        let state = self.state(place);
        let running = self.running(place);
        match next(alloc, state, running)? {
            Err(refusal) => Ok(Answer::refused(refusal)),
            Ok(added) => Ok(Answer {
                reply: stepped(state, running, &added),
                change: Change::Round { place, added },
            }),
        }
    }

    /// The caller holds the session afterwards, where nobody held it and its grammar is one of the script's.
    fn answer_resume<R: Runner>(&self, heads: &Heads<R>, caller: u32, name: &Text) -> Answer
        ensures { IsAnswer heads.now self.now caller (Command.Resume name.now) result }
    {
        let Some(place) = self.place(name) else {
            return Answer::refused(Refusal::NoSession);
        };
        let state = self.state(place);
        if let Some(owner) = state.holder {
            return Answer::refused(Refusal::Busy { owner });
        }
        if !heads.is_known(state) {
            return Answer::refused(Refusal::NoGrammar);
        }
        Answer {
            reply: resumed(state, self.running(place)),
            change: Change::Holder {
                place,
                holder: Some(caller),
            },
        }
    }

    /// What the session has, where the caller holds it.
    fn answer_print(&self, caller: u32, name: &Text) -> Answer
        ensures { (heads : Seq Head) → IsAnswer heads self.now caller
            (Command.Print name.now) result }
    {
        match self.held(caller, name) {
            Ok(place) => Answer::without_change(printed(self.state(place), self.running(place))),
            Err(refusal) => Answer::refused(refusal),
        }
    }

    /// Nobody holds the session afterwards, where the caller held it.
    fn answer_release(&self, caller: u32, name: &Text) -> Answer
        ensures { (heads : Seq Head) → IsAnswer heads self.now caller
            (Command.Release name.now) result }
    {
        match self.held(caller, name) {
            Ok(place) => Answer {
                reply: Reply::Released,
                change: Change::Holder {
                    place,
                    holder: None,
                },
            },
            Err(refusal) => Answer::refused(refusal),
        }
    }

    /// One round more of the session at the place.
    fn add_round(&mut self, alloc: Global, place: usize, added: State) -> Result<(), NoMemory>
        requires { SessionAt self.old.sessions place (IsNextRound self.old.docs added) }
        ensures ok { OnOk result (self.new ≡ changed self.old (Change.Round place added)) }
        ensures err { OnErr result (self.new ≡ self.old) }
    {
        let list = copied(alloc, added.get())?;
        let state = &mut self.sessions[place];
        let running = &mut self.running[place];
        go_on(alloc, state, running, list, added)
    }

    /// The session at the place has this holder, or none, from now on.
    fn hold(&mut self, place: usize, holder: Option<u32>)
        requires { SessionAt self.old.sessions place (λ s. Unit {0}) }
        ensures { self.new ≡ changed self.old (Change.Holder place holder) }
    {
        give(&mut self.sessions[place], holder);
    }

    /// One session more, whose name is new.
    fn add_session(
        &mut self,
        alloc: Global,
        state: SessionState,
        running: Session,
    ) -> Result<(), NoMemory>
        requires free { has_session self.old state.name ≡ false }
        requires room { length self.old.sessions < SESSIONS }
        requires runs { IsRunning self.old.docs state running }
        ensures ok { OnOk result
            (self.new ≡ record self.old { sessions = self.old.sessions ++ state ∷ [] }) }
        ensures err { OnErr result (self.new ≡ self.old) }
    {
        self.sessions.reserve(1)?;
        self.running.reserve(1)?;
        self.session_names.push(alloc, &state.name)?;
        self.sessions.push_reserved(state);
        self.running.push_reserved(running);
        Ok(())
    }

    /// One document more, whose name is new.
    fn add_doc(&mut self, alloc: Global, doc: Doc) -> Result<(), NoMemory>
        requires free { has_doc self.old doc.name ≡ false }
        requires room { is_full self.old doc.size ≡ false }
        ensures ok { OnOk result (self.new ≡ record self.old { docs = self.old.docs ++ doc ∷ [] }) }
        ensures err { OnErr result (self.new ≡ self.old) }
    {
        let size = doc.size as u64;
        let sentences = doc.sentences.len() as u64;
        let committed = Committed::new(alloc, doc)?;
        self.docs.reserve(1)?;
        self.doc_names.push(alloc, committed.name())?;
        self.bytes += size;
        self.sentences += sentences;
        self.docs.push_reserved(committed);
        Ok(())
    }

    /// The state of the session at a place.
    fn state(&self, place: usize) -> &SessionState
        requires { place < length self.now.sessions }
        ensures { slice_get self.now.sessions place ≡ Some result.now }
    {
        &self.sessions[place]
    }

    /// The session that runs at a place.
    fn running(&self, place: usize) -> &Session
        requires { place < length self.now.sessions }
        ensures { (s : SessionState) → slice_get self.now.sessions place ≡ Some s
            → IsRunning self.now.docs s result.now }
    {
        &self.running[place]
    }

    /// All documents as a view, for a session that is opened now.
    fn view(&self, alloc: Global) -> Result<View, NoMemory>
        ensures tiled { IfOk result (λ view. Tiles view.segments self.now.docs) }
        ensures documents { IfOk result (λ view. view.documents ≡ length self.now.docs) }
    {
        let segments = shared(alloc, &self.docs)?;
        let view = View::make(alloc, segments, self.docs.len() as u32)?;
        Ok(view)
    }

    /// A session of one of the script's grammars, which the caller holds afterwards.
    fn answer_open<R: Runner>(
        &self,
        alloc: Global,
        heads: &mut Heads<R>,
        caller: u32,
        name: &Text,
        grammar: &Text,
        limit: u32,
    ) -> Result<Answer, NoMemory>
        ensures answer { IfOk result (IsAnswer heads.old self.now caller
            (Command.OpenSession name.now grammar.now limit)) }
        ensures same { heads.new ≡ heads.old }
    {
        let Some(place) = heads.place(grammar) else {
            return Ok(Answer::refused(Refusal::NoGrammar));
        };
        if limit < 1 || SESSION_ROUNDS < limit {
            return Ok(Answer::refused(Refusal::BadLimit { limit }));
        }
        if self.has_session(name) {
            return Ok(Answer::refused(Refusal::Taken));
        }
        let count = self.sessions.len();
        if SESSIONS as usize <= count {
            return Ok(Answer::refused(Refusal::NoRoom {
                count: count as u32,
            }));
        }
        let documents = self.docs.len() as u32;
        let state = opened(alloc, name, heads.head(place), documents, limit, caller)?;
        let running = heads.start(alloc, place, self.view(alloc)?, limit)?;
        Ok(Answer {
            reply: Reply::Opened { documents, limit },
            change: Change::Opening(state, running),
        })
    }

    /// The document that was read, or its first fault.
    fn answer_read(&self, name: &Text, body: &Bytes, read: Result<Doc, ConlluFault>) -> Answer
        requires { MatchResult read (λ doc. Reads name.now body.now doc)
            (λ fault. doc_fault body.now ≡ Some fault) }
        ensures { (heads : Seq Head) (caller : ℕ) → IsAnswer heads self.now caller
            (Command.AddDoc name.now body.now) result }
    {
        let doc = match read {
            Ok(doc) => doc,
            Err(fault) => {
                return Answer::refused(Refusal::BadDoc {
                    line: fault.line,
                    kind: fault.kind,
                });
            }
        };
        if self.has_doc(name) {
            return Answer::refused(Refusal::Duplicate);
        }
        if self.is_full(doc.size) {
            return Answer::refused(self.full());
        }
        Answer {
            reply: Reply::Added {
                documents: self.docs.len() as u32 + 1,
            },
            change: Change::Document(doc),
        }
    }

    /// The document that the bytes are, which is committed afterwards.
    fn answer_doc(&self, alloc: Global, name: &Text, body: &Bytes) -> Result<Answer, NoMemory>
        ensures { IfOk result (λ answer. (heads : Seq Head) (caller : ℕ)
            → IsAnswer heads self.now caller (Command.AddDoc name.now body.now) answer) }
    {
        let read = match read_doc(alloc, name.get(), body.get()) {
            Ok(doc) => Ok(doc),
            Err(ReadDocFault::Bad(fault)) => Err(fault),
            Err(ReadDocFault::NoMemory) => return Err(NoMemory),
        };
        Ok(self.answer_read(name, body, read))
    }

    /// All sentences in one segment, or no segment where there is none.
    fn answer_settle(&self, alloc: Global) -> Result<Answer, NoMemory>
        ensures { IfOk result (λ answer. (heads : Seq Head) (caller : ℕ)
            → IsAnswer heads self.now caller Command.Settle answer) }
    {
        let mut sizes = List::new(alloc);
        if self.sentences > 0 {
            sizes.push(self.sentences as u32)?;
        }
        Ok(Answer::without_change(Reply::Settled { sizes }))
    }
}

/// The segments of documents, which are shared.
fn shared(alloc: Global, docs: &[Committed]) -> Result<List<Arc<Segment, Global>>, NoMemory>
    ensures { IfOk result (λ segments. AllZip StandsAlone docs.now (map arc_value segments)) }
{
    let mut segments = List::new(alloc);
    for doc in docs {
        segments.push(doc.segment().clone()?)?;
    }
    Ok(segments)
}

/// Mentions, copied.
fn copied(alloc: Global, mentions: &[Mention]) -> Result<List<Mention>, NoMemory>
    ensures { IfOk result (λ twin. twin ≡ mentions.now) }
{
    let mut twin = List::new(alloc);
    for mention in mentions {
        twin.push(mention.copy(alloc)?)?;
    }
    Ok(twin)
}

/// The state of a session of a head that is opened over the first documents.
fn opened(
    alloc: Global,
    name: &Text,
    head: &Head,
    documents: u32,
    limit: u32,
    caller: u32,
) -> Result<SessionState, NoMemory>
    ensures { IfOk result (λ state. state ≡ record {
      name = name.now;
      kind = head.now.kind;
      text = head.now.text;
      documents = documents;
      limit = limit;
      rounds = [];
      holder = Some caller;
    }) }
{
    Ok(SessionState {
        name: name.copy(alloc)?,
        kind: head.kind,
        text: head.text.copy(alloc)?,
        documents,
        limit,
        rounds: List::new(alloc),
        holder: Some(caller),
    })
}

/// A session has this holder, or none, from now on.
fn give(state: &mut SessionState, holder: Option<u32>)
    ensures { state.new ≡ record state.old { holder = holder } }
{
    state.holder = holder;
}

/// Takes back the last round, if there is one.
fn take_back(alloc: Global, rounds: &mut List<List<Mention>>)
    ensures { rounds.new ≡ take (length rounds.old - 1) rounds.old }
{
    let mut lists = mem::replace(rounds, List::new(alloc)).into_vec();
    lists.pop();
    *rounds = List::from_vec(lists);
}

/// A session goes on by a round that added these mentions; where memory is refused, it stays as it was.
fn go_on(
    alloc: Global,
    state: &mut SessionState,
    running: &mut Session,
    list: List<Mention>,
    added: State,
) -> Result<(), NoMemory>
    requires same { list ≡ added }
    requires runs { (docs : Seq TheDoc) × IsRunning docs state.old running.old
        × IsNextRound docs added state.old }
    ensures runs { (docs : Seq TheDoc) → IsRunning docs state.old running.old
        → IsNextRound docs added state.old → IsRunning docs state.new running.new }
    ensures rounds { state.new ≡ record state.old { rounds = state.new.rounds } }
    ensures ok { OnOk result
        (state.new ≡ record state.old { rounds = state.old.rounds ++ added ∷ [] }) }
    ensures err { OnErr result (state.new ≡ state.old) }
{
    state.rounds.push(list)?;
    match running.add(alloc, added) {
        Ok(()) => Ok(()),
        Err(NoMemory) => {
            take_back(alloc, &mut state.rounds);
            Err(NoMemory)
        }
    }
}
