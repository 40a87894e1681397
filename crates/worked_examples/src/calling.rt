// The calls, each over what is lent of the buffers that it takes. One more is a method here and a line in script's `Order`.
use crate::answers;
use crate::lending::Buffer;
use crate::show::{entries, number, say};
use crate::state::State;
use std::io;

impl State {
    pub(crate) fn layout(
        &mut self,
        rt: &impl Print,
        width: usize,
        height: usize,
        start: usize,
        goal: usize,
    ) -> io::Result<()> {
        let lending = self.lending;
        let changed = calls::layout::layout(
            width,
            height,
            start,
            goal,
            lending.lend(Buffer::Ground, &mut self.ground),
            lending.lend(Buffer::Learned, &mut self.learned),
            lending.lend(Buffer::Link, &mut self.link),
        );
        self.head = changed.head;
        answers::verdict(rt, changed.verdict)
    }

    pub(crate) fn report(&mut self, rt: &impl Print, c: usize) -> io::Result<()> {
        let lending = self.lending;
        let changed = calls::report::report(
            self.head,
            lending.lend(Buffer::Ground, &mut self.ground),
            lending.lend(Buffer::Learned, &mut self.learned),
            lending.lend(Buffer::Link, &mut self.link),
            c,
        );
        self.head = changed.head;
        answers::verdict(rt, changed.verdict)
    }

    pub(crate) fn plan(&mut self, rt: &impl Print) -> io::Result<()> {
        let lending = self.lending;
        let planned = calls::plan::plan(
            self.head,
            lending.lend(Buffer::Ground, &mut self.ground),
            lending.lend(Buffer::Learned, &mut self.learned),
            lending.lend(Buffer::Link, &mut self.link),
            lending.lend(Buffer::Mark, &mut self.mark),
            lending.lend(Buffer::Cost, &mut self.cost),
            lending.lend(Buffer::Trail, &mut self.trail),
        );
        self.head = planned.head;
        answers::outcome(rt, planned.outcome)?;
        say(rt, b" expanded", planned.expanded)
    }

    // `move`, which is a word of the language.
    pub(crate) fn advance(&mut self, rt: &impl Print) -> io::Result<()> {
        let lending = self.lending;
        let moved = calls::advance::advance(
            self.head,
            lending.lend(Buffer::Ground, &mut self.ground),
            lending.lend(Buffer::Learned, &mut self.learned),
            lending.lend(Buffer::Link, &mut self.link),
        );
        self.head = moved.head;
        answers::step(rt, moved.step, moved.head.cell)
    }

    // The question, then list with its front, and list by its count.
    pub(crate) fn list(&mut self, rt: &impl Print) -> io::Result<()> {
        let head = self.head;
        let lending = self.lending;
        let g = &lending.lend(Buffer::Ground, &mut self.ground)[..];
        let l = &lending.lend(Buffer::Learned, &mut self.learned)[..];
        let k = &lending.lend(Buffer::Link, &mut self.link)[..];
        let buffer = lending.lend(Buffer::List, &mut self.list);
        number(rt, calls::list::list_question(head, g, l, k, &buffer[..]))?;
        let front = calls::list::list(head, g, l, k, &mut buffer[..]);
        let length = front.len();
        entries(rt, 0, b" list", front, length)?;
        let count = calls::list::list_count(head, g, l, k, buffer);
        say(rt, b" count", count)
    }
}
