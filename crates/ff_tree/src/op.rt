ghost use Rattle.std.specs.Prelude.{◌≡◌};
ghost use Rattle.ff_tree.specs.Ops.{arity_of, is_pure_op};

use ff_name::Worded;

/// An operator of the script language.
#[derive(Clone, Copy, Debug, PartialEq, Eq)]
pub enum Op {
    /// `+` of two numbers. Overflow where 64 bits don't hold the sum.
    Add,
    /// `-` of two numbers. Overflow.
    Sub,
    /// `*` of two numbers. Overflow.
    Mul,
    /// `/` of two numbers, rounded toward zero. Range where the divisor is 0; overflow.
    Div,
    /// `%`: the remainder of `/`, with its faults.
    Rem,
    /// `<` of two numbers, or of two texts byte by byte.
    Less,
    /// `<=` of two numbers, or of two texts.
    AtMost,
    /// `=` of any two; kind where one is a function.
    Equal,
    /// `not` of a truth value.
    Not,
    /// `cat` of two texts: both, joined. Limit where the text is too long or the mass too large.
    Cat,
    /// `len`: how many bytes a text has.
    Len,
    /// `byte` of a text and a number: the byte at that place. Range where there is none.
    Byte,
    /// `cut` of a text and two numbers: the bytes from the first place to before the second. Range
    /// where the places aren't in order, or one is inside a character; limit.
    Cut,
    /// `str`: the decimal text of a number. Limit.
    Str,
    /// `num`: the number whose decimal text it is, or null.
    Num,
    /// `cookie` of a key: the cookie of the page's domain, or null.
    Cookie,
    /// `set-cookie` of a key and a value. Range where the page is blank or a size is wrong; limit.
    SetCookie,
    /// `del-cookie` of a key: the cookie is taken away.
    DelCookie,
    /// `self`, without operands: the page's window.
    SelfWindow,
    /// `opener` of a window: the one that opened it, or null. Dead where it isn't open.
    Opener,
    /// `live` of a window: whether it is open.
    Live,
    /// `url` of a window: its page's address. Dead; limit.
    Url,
    /// `page` of a window: the root of its page. Dead.
    Page,
    /// `window` of a name: the first open window of that name, or null.
    Window,
    /// `open` of an address: a new window. Range where it is no address; limit.
    Open,
    /// `open-named` of a name and an address: the window of that name goes there, or a new one.
    /// Range; limit.
    OpenNamed,
    /// `go` of a window and an address. Dead; range; limit.
    Go,
    /// `close` of a window. Dead.
    Close,
    /// `kind` of a node: the word of its kind.
    Kind,
    /// `text` of a node: its text or label. Kind where it has none.
    Text,
    /// `set-text` of a node and a text. Kind where it has none; limit of the mass.
    SetText,
    /// `count` of a node: how many children it has.
    Count,
    /// `child` of a node and a number: the child at that place. Range where there is none.
    Child,
    /// `find` of a node and a name: the first node of that name in its walk, or null.
    Find,
    /// `nth` of a node, a kind's word and a number: the node of that kind and number in its walk,
    /// or null.
    Nth,
    /// `insert` of a parent, a child and a place. Kind, range or limit, as the two nodes and the
    /// place are.
    Insert,
    /// `listen` of a node and a function, which becomes its last handler. Kind; limit of 16.
    Listen,
    /// `ask` of an address, a body and a callback: the body is sent. Kind where the callback hasn't
    /// one parameter; range; limit.
    Ask,
}

/// Every operator, in the order of `Op`.
const ALL: [Op; 38] = [
    Op::Add,
    Op::Sub,
    Op::Mul,
    Op::Div,
    Op::Rem,
    Op::Less,
    Op::AtMost,
    Op::Equal,
    Op::Not,
    Op::Cat,
    Op::Len,
    Op::Byte,
    Op::Cut,
    Op::Str,
    Op::Num,
    Op::Cookie,
    Op::SetCookie,
    Op::DelCookie,
    Op::SelfWindow,
    Op::Opener,
    Op::Live,
    Op::Url,
    Op::Page,
    Op::Window,
    Op::Open,
    Op::OpenNamed,
    Op::Go,
    Op::Close,
    Op::Kind,
    Op::Text,
    Op::SetText,
    Op::Count,
    Op::Child,
    Op::Find,
    Op::Nth,
    Op::Insert,
    Op::Listen,
    Op::Ask,
];

/// Each operator has a word in the notation.
impl Worded for Op {
    ghost use Rattle.ff_tree.specs.Ops.{word_of};
    ghost use Rattle.ff_tree.specs.declared.op.TheConstants.{ALL};
    ghost use Rattle.ff_tree.specs.Words.{own_word};

    ghost word_of = { word_of };

    ghost each = { ALL };

    ghost own = { own_word };

    fn all() -> &'static [Op] {
        &ALL
    }

    fn word(self) -> &'static str {
        match self {
            Op::Add => "+",
            Op::Sub => "-",
            Op::Mul => "*",
            Op::Div => "/",
            Op::Rem => "%",
            Op::Less => "<",
            Op::AtMost => "<=",
            Op::Equal => "=",
            Op::Not => "not",
            Op::Cat => "cat",
            Op::Len => "len",
            Op::Byte => "byte",
            Op::Cut => "cut",
            Op::Str => "str",
            Op::Num => "num",
            Op::Cookie => "cookie",
            Op::SetCookie => "set-cookie",
            Op::DelCookie => "del-cookie",
            Op::SelfWindow => "self",
            Op::Opener => "opener",
            Op::Live => "live",
            Op::Url => "url",
            Op::Page => "page",
            Op::Window => "window",
            Op::Open => "open",
            Op::OpenNamed => "open-named",
            Op::Go => "go",
            Op::Close => "close",
            Op::Kind => "kind",
            Op::Text => "text",
            Op::SetText => "set-text",
            Op::Count => "count",
            Op::Child => "child",
            Op::Find => "find",
            Op::Nth => "nth",
            Op::Insert => "insert",
            Op::Listen => "listen",
            Op::Ask => "ask",
        }
    }
}

impl Op {
    /// How many operands the operator takes, from 0 to 3.
    pub fn arity(&self) -> u32
        ensures { result ≡ arity_of self.now }
    {
        match self {
            Op::SelfWindow => 0,
            Op::Not
            | Op::Len
            | Op::Str
            | Op::Num
            | Op::Cookie
            | Op::DelCookie
            | Op::Opener
            | Op::Live
            | Op::Url
            | Op::Page
            | Op::Window
            | Op::Open
            | Op::Close
            | Op::Kind
            | Op::Text
            | Op::Count => 1,
            Op::Cut | Op::Nth | Op::Insert | Op::Ask => 3,
            _ => 2,
        }
    }

    /// Whether the operator's result depends on its operands alone and it changes no store.
    pub fn is_pure(&self) -> bool
        ensures { result ≡ is_pure_op self.now }
    {
        matches!(
            self,
            Op::Add
                | Op::Sub
                | Op::Mul
                | Op::Div
                | Op::Rem
                | Op::Less
                | Op::AtMost
                | Op::Equal
                | Op::Not
                | Op::Cat
                | Op::Len
                | Op::Byte
                | Op::Cut
                | Op::Str
                | Op::Num
        )
    }
}
