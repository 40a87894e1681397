// What is lent of the buffers of a call.

// The buffers, in the order of their numbers in the script: ground has 1.
#[derive(Clone, Copy, Debug, PartialEq, Eq)]
pub enum Buffer {
    Ground,
    Learned,
    Link,
    Mark,
    Cost,
    Trail,
    List,
}

impl Buffer {
    // The buffer with a number of the script, which is 0 where none is meant. (No TryFrom: that there is none is an answer, and no error.)
    pub(crate) fn numbered(number: usize) -> Option<Self> {
        match number {
            1 => Some(Self::Ground),
            2 => Some(Self::Learned),
            3 => Some(Self::Link),
            4 => Some(Self::Mark),
            5 => Some(Self::Cost),
            6 => Some(Self::Trail),
            7 => Some(Self::List),
            _ => None,
        }
    }
}

// Of each buffer its first room entries are lent, one fewer of the short one, or all where it has no more.
#[derive(Clone, Copy, Debug, PartialEq, Eq)]
pub struct Lending {
    pub room: usize,
    pub short: Option<Buffer>,
}

impl Lending {
    pub(crate) fn lend<T: Copy>(self, which: Buffer, buffer: &mut [T]) -> &mut [T] {
        let fewer = (self.short == Some(which)) as usize;
        let n = self.room.saturating_sub(fewer).min(buffer.len());
        &mut buffer[..n]
    }
}
