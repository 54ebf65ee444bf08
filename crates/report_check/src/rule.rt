use packet::Reply;

/// The kinds of lines.
#[derive(Clone, Copy)]
pub enum Kind {
    /// The first line.
    Header,
    Shape,
    Init,
    Entry,
    Answer,
    Word,
    Order,
    End,
}

/// A rule of good reports that a line breaks: what was found, and what had to stand there.
#[derive(Clone, Copy)]
pub enum Rule {
    /// Nothing stands behind the end.
    BehindEnd,
    /// The text ends before the line of the end.
    NoEnd,
    /// The first line is `torusmem 1` or `torusmem 2`.
    FirstLine,
    /// The second line is the shape.
    SecondLine,
    /// The last line ends with a line feed.
    NoLineFeed,
    /// A line has the spelling of one of a report.
    Spelling,
    /// A line of this kind comes before those of later kinds.
    Place(Kind),
    /// The version is 1 or 2.
    Version(u32),
    /// A radix is 2 to 8.
    Radix(u32),
    /// There are at most 64 tiles.
    Tiles(u32),
    /// There are 1 to 65536 words.
    Words(u32),
    /// An address is below the number of words.
    Address {
        found: u32,
        words: u32,
    },
    /// Addresses rise: the least that may stand.
    AddressOrder {
        found: u32,
        least: u64,
    },
    /// No line gives a word that is 0.
    Zero {
        address: u32,
    },
    /// A bank is below the number of tiles.
    Bank {
        found: u32,
        tiles: u32,
    },
    /// Banks do not fall: the bank of the entry before.
    BankOrder {
        found: u32,
        last: u32,
    },
    /// The places of a bank are 0, 1, 2 and so on.
    EntryPlace {
        found: u32,
        expected: u64,
    },
    /// A source is below the number of tiles.
    Source {
        found: u32,
        tiles: u32,
    },
    /// A tag is below 16.
    Tag(u32),
    /// There are at most 65536 entries.
    EntryCount,
    /// The bank is the home of the address.
    Home {
        found: u32,
        expected: u32,
    },
    /// And, or, xor, max and min stand in version 2.
    Newer,
    /// The reply is what the operation on the address gives on the memory so far.
    Reply {
        found: Reply,
        expected: Reply,
        address: u32,
    },
    /// In version 2 an entry is one of and, or, xor, max and min.
    NoneNewer,
    /// An index is below 4096.
    Index(u32),
    /// Answers rise by processor and then by index.
    AnswerOrder {
        processor: u32,
        index: u32,
    },
    /// An answer and an order line name an entry.
    NoEntry {
        bank: u32,
        place: u32,
    },
    /// The processor of an answer is the source of its entry.
    Processor {
        found: u32,
        expected: u32,
    },
    /// The reply of an answer is that of its entry.
    AnswerReply {
        found: Reply,
        expected: Reply,
    },
    /// An entry has one answer.
    AnsweredTwice {
        bank: u32,
        place: u32,
    },
    /// Each word that is not 0 at the end has its line.
    LeftOut {
        address: u32,
        word: u64,
    },
    /// A `word` line gives the word that the entries leave.
    Word {
        found: u64,
        expected: u64,
    },
    /// An entry is served behind its issue.
    ServedFirst {
        served: u32,
        issued: u32,
    },
    /// An entry is answered behind its service.
    AnsweredFirst {
        answered: u32,
        served: u32,
    },
    /// The order lines of a bank have the places 0, 1, 2 and so on.
    OrderPlace {
        found: u32,
        expected: u64,
    },
    /// An order line has the number of an answer exactly where its entry has an answer line.
    Answered {
        told: bool,
    },
    /// The numbers of service rise: the least that may stand.
    ServiceOrder {
        found: u32,
        least: u64,
    },
    /// Event numbers are 1 to 196608.
    Event(u32),
    /// No two events have one number.
    EventTwice(u32),
    /// A bank has no order line, or one for each entry, as the others have.
    Unordered {
        bank: u32,
        found: u64,
        expected: u64,
    },
    /// Behind `end complete` each entry has an answer.
    Unanswered {
        bank: u32,
        place: u64,
    },
}

/// The first bad line of a report, and the rule that it breaks.
#[derive(Clone, Copy)]
pub struct BadReport {
    /// The line, from 1, as `check_report` gives it.
    pub line: u64,
    /// The first of the rules that it breaks, in the order of `specs/Broken.antt`.
    pub rule: Rule,
}
