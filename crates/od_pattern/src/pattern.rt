//! Token constraints and surface patterns.
use od_text::list::List;
use od_text::text::Text;
use sqlite_items::Boxed;

/// What a constraint asks of a token: one of its texts, or the labels of its edges.
#[derive(Clone, Copy, Debug, PartialEq, Eq)]
pub enum Field {
    /// FORM.
    Word,
    /// FORM after default case folding.
    Norm,
    /// LEMMA.
    Lemma,
    /// UPOS.
    Upos,
    /// XPOS.
    Tag,
    /// The value of `Entity` in MISC.
    Entity,
    /// The value of `Chunk` in MISC.
    Chunk,
    /// The labels of the edges that end at the token.
    Incoming,
    /// The labels of the edges that begin at the token.
    Outgoing,
}

/// A text that must be equal, or a regular expression that must match the whole text.
#[derive(Debug, Drop)]
pub enum Value {
    Plain(Text),
    Regex(Text),
}

/// A test of one token.
#[derive(Debug)]
pub enum Constraint {
    /// Every token passes.
    Any,
    /// Some text of the field fits the value.
    Is(Field, Value),
    Not(Boxed<Constraint>),
    And(Boxed<Constraint>, Boxed<Constraint>),
    Or(Boxed<Constraint>, Boxed<Constraint>),
}

impl Drop for Constraint {
    // Negations and left operands may be thousands deep, so that only right operands take a call.
    fn drop(mut self) {
        loop {
            match self {
                Constraint::Any => return,
                Constraint::Is(_, _) => return,
                Constraint::Not(inner) => self = inner.into_inner(),
                Constraint::And(left, right) => {
                    let _right = right.into_inner();
                    self = left.into_inner();
                }
                Constraint::Or(left, right) => {
                    let _right = right.into_inner();
                    self = left.into_inner();
                }
            }
        }
    }
}

/// How often a part may be repeated, and whether fewer turns are preferred.
#[derive(Clone, Copy, Debug, PartialEq, Eq)]
pub struct Turns {
    /// The least number of turns.
    pub least: u32,
    /// The greatest number of turns, where there is one.
    pub most: Option<u32>,
    /// Whether fewer turns are preferred.
    pub lazy: bool,
}

/// A pattern over the tokens of a sentence in their order.
#[derive(Debug, Drop)]
pub enum Surface {
    /// One token where the constraint holds.
    Token(Constraint),
    /// The span of a mention with the label; a longer one is preferred.
    Label(Text),
    /// No token: a test of the one at the place, or of the one before it, which must pass or must not.
    Look {
        ahead: bool,
        positive: bool,
        constraint: Constraint,
    },
    /// The beginning of the sentence.
    First,
    /// The end of the sentence.
    Last,
    /// One after another.
    Seq(List<Surface>),
    /// One of them; an earlier one is preferred.
    Alt(List<Surface>),
    Repeat(Boxed<Surface>, Turns),
    /// What is taken becomes a part of this name.
    Capture(Text, Boxed<Surface>),
}
