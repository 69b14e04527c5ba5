//! Random commands of a shell.

use hub_transcript::Words;
use std::alloc::{AllocError, Global};
use std::fmt::Write;

/// The ids of the documents.
pub(crate) const IDS: &str = "a b c _design/x";

// The rules that make a command. Each line has the name of a part, a weight, and a text that the part may be.
// In a text the names of other parts stand between `<` and `>`. The weights of a part add up to `WEIGHTS`.
// Three parts have no rule (`Maker::part`).
const RULES: &str = r#"
event 1 delete
event 6 write <document>
event 6 write <document> <document>
event 6 write <document> <document> <document>
event 6 make <draft>
event 6 make <draft> <draft>
event 12 begin <query>
event 1 empty <query>
event 42 hand <feed>
event 8 beat <feed>
event 4 expire <feed>
event 18 take <feed>
event 4 finish <feed>
document 108 {"_id":"<id>","_revisions":{<history>},<members>}
document 12 <draft>
history 40 "start":1,"ids":[<hash>]
history 20 "start":2,"ids":[<hash>]
history 20 "start":2,"ids":[<hash>,<hash>]
history 14 "start":3,"ids":[<hash>]
history 13 "start":3,"ids":[<hash>,<hash>]
history 13 "start":3,"ids":[<hash>,<hash>,<hash>]
hash 40 "a"
hash 40 "b"
hash 40 "c"
draft 40 ~{"_id":"<id>",<members>}
draft 80 ~{"_id":"<id>","_rev":"<rev>",<members>}
rev 90 <known>
rev 8 1-a
rev 8 1-b
rev 7 2-a
rev 7 2-b
members 40 "v":<bit>,"_deleted":true
members 80 "v":<bit>,"_deleted":false
bit 60 0
bit 60 1
id 30 a
id 30 b
id 30 c
id 30 _design/x
query 60 <mode><since><limit><filter>&style=main_only
query 60 <mode><since><limit><filter>&style=all_docs
mode 40 feed=normal<more>
mode 40 feed=longpoll<more>
mode 40 feed=continuous<more>
more 30
more 30 &heartbeat=1000
more 30 &include_docs=true
more 30 &heartbeat=1000&include_docs=true
since 48
since 24 &since=now
since 24 &since=<number>
since 8 &since=<number>-0
since 8 &since=<number>-1
since 8 &since=<number>-2
limit 87
limit 11 &limit=1
limit 11 &limit=2
limit 11 &limit=3
filter 60
filter 30 &filter=_design
filter 10 &filter=_doc_ids&doc_ids=%5B%5D
filter 10 &filter=_doc_ids&doc_ids=%5B%22<id>%22%5D
filter 10 &filter=_doc_ids&doc_ids=%5B%22<id>%22,%22<id>%22%5D
"#;

const WEIGHTS: u64 = 120;

/// A linear congruential generator.
#[derive(Clone, Copy)]
pub(crate) struct Random {
    pub(crate) state: u64,
}

impl Random {
    /// The next random number, below `end`; 0 where `end` is 0.
    pub(crate) fn below(&mut self, end: u64) -> u64 {
        self.state = self
            .state
            .wrapping_mul(6_364_136_223_846_793_005)
            .wrapping_add(1_442_695_040_888_963_407);
        if end == 0 {
            return 0;
        }
        self.state / 4_294_967_296 % end
    }
}

/// The word at this place.
pub(crate) fn word_at<'a>(words: &'a str, place: u64) -> &'a str {
    let mut words = Words::of(words);
    for _ in 0..place {
        let _before = words.word();
    }
    words.word()
}

// The text of a part for a number below `WEIGHTS`.
fn text_of(part: &str, number: u64) -> &'static str {
    let mut left = number;
    for line in RULES.split('\n') {
        let mut words = Words::of(line);
        if words.word() == part {
            let weight = words.number();
            if left < weight {
                return words.rest();
            }
            left -= weight;
        }
    }
    ""
}

// The place in `IDS` of the id of a command's document, by its place `at`; `usize::MAX` where there is none.
fn place_of(command: &str, at: usize) -> usize {
    let doc = command.split(r#""_id":""#).skip(1).nth(at).unwrap_or("");
    let (id, _) = doc.split_once('"').unwrap_or(("", ""));
    Words::of(id).verb(IDS)
}

/// A maker of commands, with the facts of the replies that it uses.
#[derive(Drop)]
pub(crate) struct Maker {
    pub(crate) random: Random,
    /// The command that was made last.
    pub(crate) command: String,
    /// The texts of the command still to be made, the next text last.
    texts: Vec<&'static str>,
    /// The revision 1-a and the revisions that replies told, each with a blank after it, and their number.
    revs: String,
    rev_count: u64,
    /// How many feeds were opened.
    pub(crate) feeds: u64,
    /// How many documents were stored.
    pub(crate) length: u64,
    /// The last sequence at which each of the ids was stored, 0 where it never was.
    pub(crate) last: [u64; 4],
}

impl Maker {
    pub(crate) fn new(alloc: Global, random: Random) -> Maker {
        Maker {
            random,
            command: String::new(alloc),
            texts: Vec::new(alloc),
            revs: String::new(alloc),
            rev_count: 0,
            feeds: 0,
            length: 0,
            last: [0; 4],
        }
    }

    /// Forgets all replies.
    pub(crate) fn forget(&mut self) -> Result<(), AllocError> {
        self.feeds = 0;
        self.length = 0;
        self.last = [0; 4];
        self.rev_count = 1;
        self.revs.clear();
        self.revs.push_str("1-a ")
    }

    // Notes that a document of the id at this place was stored under a revision.
    fn store(&mut self, place: usize, rev: &str) -> Result<(), AllocError> {
        self.length = self.length.saturating_add(1);
        if place < 4 {
            self.last[place] = self.length;
        }
        self.rev_count = self.rev_count.saturating_add(1);
        write!(self.revs, "{rev} ")
    }

    /// Notes the facts of the reply to the last command.
    pub(crate) fn note(&mut self, reply: &str) -> Result<(), AllocError> {
        if reply.starts_with("opened") {
            self.feeds = self.feeds.saturating_add(1);
        }
        for at in 0..3usize {
            let place = place_of(self.command.as_str(), at);
            let word = word_at(reply, (at as u64).saturating_add(1));
            if place < 4 && word.contains('-') {
                self.store(place, word)?;
            }
        }
        Ok(())
    }

    // The number of a feed: mostly one of the last two, now and then any, or one that does not exist.
    fn feed(&mut self) -> u64 {
        if self.random.below(8) == 0 {
            return self.random.below(self.feeds.saturating_add(2));
        }
        let back = self.random.below(2).saturating_add(1);
        self.feeds.saturating_sub(back)
    }

    // Makes a part. `feed` is the number of a feed, `number` is one below 16, and `known` is 1-a or a
    // revision that a reply told.
    fn part(&mut self, part: &str) -> Result<(), AllocError> {
        match Words::of(part).verb("feed number known") {
            0 => {
                let feed = self.feed();
                write!(self.command, "{feed}")
            }
            1 => {
                let number = self.random.below(16);
                write!(self.command, "{number}")
            }
            2 => {
                let place = self.random.below(self.rev_count);
                self.command.push_str(word_at(self.revs.as_str(), place))
            }
            _ => {
                let number = self.random.below(WEIGHTS);
                self.texts.push(text_of(part, number))?;
                Ok(())
            }
        }
    }

    // Goes on with a text: its front up to the first part, and then this part.
    fn go_on(&mut self, text: &'static str) -> Result<(), AllocError> {
        let (front, rest) = text.split_once('<').unwrap_or((text, ""));
        self.command.push_str(front)?;
        let Some((part, rest)) = rest.split_once('>') else {
            return Ok(());
        };
        self.texts.push(rest)?;
        self.part(part)
    }

    /// Makes the next command.
    pub(crate) fn make(&mut self) -> Result<(), AllocError> {
        self.command.clear();
        self.texts.push("<event>")?;
        for _ in 0..1000 {
            match self.texts.pop() {
                Some(text) => self.go_on(text)?,
                None => break,
            }
        }
        Ok(())
    }
}
