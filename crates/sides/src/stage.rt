// The lines that the program is run on, one after the other. `stdin` begins with what each says.
use crate::desks::{ALL, Desk, Lengths, ROOM};
use crate::events::Event;
use crate::places::place;
use crate::records::{event, number};
use crate::{kinds, telling};
use std::alloc::Global;
use std::io;
use tables::{BOOK, SUMS};

// The desk that cases begin with, the desk as it stands, how much of it is lent, and an event of each kind.
#[derive(Drop)]
pub struct Stage {
    begun: Desk,
    desk: Desk,
    lent: Lengths,
    kinds: Vec<Event>,
}

impl Stage {
    pub fn new(alloc: Global) -> Stage {
        Stage {
            begun: Desk::of_words(0),
            desk: Desk::of_words(0),
            lent: ALL,
            kinds: Vec::new(alloc),
        }
    }

    // An event of which nothing is printed. It must be taken, or the cases would not begin with what they say.
    fn put(&mut self, alloc: Global, text: &str) -> Option<()> {
        let event = event(alloc, text)?;
        if self.desk.put(self.lent, &event).is_refusal() {
            return None;
        }
        Some(())
    }

    // Events from a number to another, each with its number for `#`.
    fn put_many(&mut self, alloc: Global, text: &str) -> Option<()> {
        let (first, rest) = text.split_once(' ')?;
        let (last, record) = rest.split_once(' ')?;
        for n in number(first)?..=number(last)? {
            let digits = n.to_string(alloc).ok()?;
            let filled = record.replace(alloc, '#', digits.as_str()).ok()?;
            self.put(alloc, filled.as_str())?;
        }
        Some(())
    }

    // Words written into the book from a place on.
    fn write(&mut self, text: &str) -> Option<()> {
        let (name, words) = text.split_once(' ')?;
        let mut at = place(name)?;
        for word in words.split(',') {
            self.desk.write(at, number(word)?)?;
            at = at.checked_add(1)?;
        }
        Some(())
    }

    // So many words, amounts and words of finishes are lent.
    fn lend(&mut self, text: &str) -> Option<()> {
        if text.is_empty() {
            self.lent = ALL;
            return Some(());
        }
        let (book, rest) = text.split_once(' ')?;
        let (sums, finishes) = rest.split_once(' ')?;
        self.lent = Lengths {
            book: number(book)? as usize,
            sums: number(sums)? as usize,
            finishes: number(finishes)? as usize,
        };
        Some(())
    }

    fn set_kinds(&mut self, alloc: Global, text: &str) -> Option<()> {
        self.kinds.clear();
        for record in text.split(' ') {
            self.kinds.push(event(alloc, record)?).ok()?;
        }
        Some(())
    }

    // What prepares a case and prints nothing.
    fn prepare(&mut self, alloc: Global, word: &str, rest: &str) -> Option<()> {
        match word {
            "" | "#" => {}
            "begin" => self.begun = self.desk,
            "fill" => self.desk = Desk::of_words(number(rest)?),
            "many" => self.put_many(alloc, rest)?,
            "write" => self.write(rest)?,
            "lend" => self.lend(rest)?,
            "kinds" => self.set_kinds(alloc, rest)?,
            _ => self.put(alloc, word)?,
        }
        Some(())
    }

    // An event and what is said of it.
    fn tell(&mut self, rt: &impl Print, alloc: Global, text: &str) -> io::Result<()> {
        let (record, says) = text.split_once(' ').unwrap_or((text, text));
        let Some(event) = event(alloc, record) else {
            return println!(rt; "  not an event: {record}");
        };
        let before = self.desk;
        let answer = self.desk.put(self.lent, &event);
        print!(rt; "  {says}: ")?;
        telling::tell(rt, &before, &self.desk, answer)
    }

    // An event of each kind, and what is said of them.
    fn tell_each(&mut self, rt: &impl Print, says: &str) -> io::Result<()> {
        print!(rt; "  {says}:")?;
        kinds::tell(rt, &self.desk, self.lent, self.kinds.as_slice())?;
        self.desk = self.begun;
        Ok(())
    }

    // The first three entries of the finish list.
    fn tell_list(&self, rt: &impl Print) -> io::Result<()> {
        let f = &self.desk.finishes;
        println!(rt;
            "    the list: {} {}, {} {}, {} {}",
            f[0], f[1], f[2], f[3], f[4], f[5]
        )
    }

    fn tell_behind(&self, rt: &impl Print) -> io::Result<()> {
        print!(rt; "  behind the words: {:?}, ", &self.desk.book[BOOK..])?;
        print!(rt; "behind the amounts: {:?}, ", &self.desk.sums[SUMS..])?;
        println!(rt; "behind the finishes: {:?}", &self.desk.finishes[ROOM..])
    }

    pub fn take<R: Print + AllocGlobal>(&mut self, rt: &R, line: &str) -> io::Result<()> {
        let alloc = rt.alloc();
        let (word, rest) = line.split_once(' ').unwrap_or((line, ""));
        match word {
            "say" => println!(rt; "{rest}"),
            "state" => {
                print!(rt; "{rest}: ")?;
                telling::state(rt, &self.desk)
            }
            "list" => self.tell_list(rt),
            "behind" => self.tell_behind(rt),
            "try" => {
                self.desk = self.begun;
                self.tell(rt, alloc, rest)
            }
            "then" => self.tell(rt, alloc, rest),
            "each" => self.tell_each(rt, rest),
            _ => match self.prepare(alloc, word, rest) {
                Some(()) => Ok(()),
                None => println!(rt; "not a line, or refused: {line}"),
            },
        }
    }
}
