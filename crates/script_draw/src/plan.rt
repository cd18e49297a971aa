//! The list of a picture's marks, made in the order of a run, each with its place.

use crate::event::{Event, Heading, Labels, Level, Spot, Stretch};
use op_base::{MessageId, NoMemory};
use std::alloc::Global;

/// A picture has at most so many marks, with those where an epoch begins.
pub const MOST_MARKS: usize = 500;

/// Where the lines of replicas begin.
pub const LEFT: u32 = 84;

/// The least way from a mark to the next one of the script, and from a message's sending to where it comes.
const STEP: u32 = 24;

/// The way between labels.
const GAP: u32 = 8;

/// The place of what stands above the lines among the edges.
const ABOVE: usize = 16;

/// The marks of a run. A mark stands to the right of all earlier ones of the script, of the labels at its replica, and of
/// where its message was sent. While replicas settle they go on side by side.
#[derive(Drop)]
pub struct Plan {
    /// How many members there are now.
    pub n: u8,
    /// The most members that there were.
    pub most: u8,
    pub events: Vec<Event>,
    pub headings: Vec<Heading>,
    pub levels: Vec<Level>,
    pub stretches: Vec<Stretch>,
    /// Where epochs begin, but the first.
    pub rules: Vec<u32>,
    /// Whether the run had more marks.
    pub is_cut: bool,
    /// Where the last mark stands.
    pub last: u32,
    /// Where the next mark stands at least.
    next: u32,
    is_settling: bool,
    /// How many marks there were where the present epoch began. Numbers of messages begin anew there.
    begun: usize,
    /// Where the labels of each replica end, and those above the lines.
    edges: [u32; 17],
    alloc: Global,
}

impl Plan {
    /// No marks, for a store of `n` members.
    pub fn new(alloc: Global, n: u8) -> Result<Plan, NoMemory> {
        let mut plan = Plan {
            n,
            most: n,
            events: Vec::new(alloc),
            headings: Vec::new(alloc),
            levels: Vec::new(alloc),
            stretches: Vec::new(alloc),
            rules: Vec::new(alloc),
            is_cut: false,
            last: LEFT,
            next: LEFT,
            is_settling: false,
            begun: 0,
            edges: [LEFT; 17],
            alloc,
        };
        plan.begin_stretches(0, n, LEFT)?;
        Ok(plan)
    }

    /// Begins the lines of replicas from one to below another.
    fn begin_stretches(&mut self, first: u8, behind: u8, x: u32) -> Result<(), NoMemory> {
        for replica in first..behind {
            let from = Spot { replica, x };
            self.stretches.push(Stretch { from, to: None })?;
        }
        Ok(())
    }

    /// Takes a place of a width behind the labels of a replica, or behind those above the lines, and not left of `least`.
    fn take(&mut self, place: usize, least: u32, width: u32) -> u32 {
        let half = width / 2;
        let edge = self.edges.get(place).copied().unwrap_or(LEFT);
        let x = edge.saturating_add(half + GAP).max(least);
        if let Some(end) = self.edges.get_mut(place) {
            *end = x.saturating_add(half);
        }
        self.last = self.last.max(x);
        x
    }

    /// The next place of a replica, for labels of a width, behind where its message was sent.
    pub fn next_spot(&mut self, replica: u8, sent: Option<Spot>, width: u32) -> Spot {
        let behind = sent.map_or(LEFT, |spot| spot.x.saturating_add(STEP));
        let x = self.take(usize::from(replica % 16), self.next.max(behind), width);
        if !self.is_settling {
            self.next = x.saturating_add(STEP);
        }
        Spot { replica, x }
    }

    /// Adds the number of a line above its first mark, of which it is told how many marks there were before.
    pub fn add_number(&mut self, line: usize, before: usize) -> Result<(), NoMemory> {
        if let Some(event) = self.events.get(before) {
            self.headings.push(Heading {
                x: event.at.x,
                line: Some(line),
                labels: Labels::none(self.alloc),
            })?;
        }
        Ok(())
    }

    /// Adds labels above the lines, behind all marks, and the number of a line where they begin it. No later mark is left
    /// of them.
    pub fn add_heading(&mut self, line: Option<usize>, labels: Labels) -> Result<(), NoMemory> {
        let x = self.take(ABOVE, self.next, labels.width());
        self.next = x;
        self.headings.push(Heading { x, line, labels })?;
        Ok(())
    }

    /// Adds the labels of a line that no replica runs. Each later mark stands to the right of them.
    pub fn add_line(&mut self, line: usize, labels: Labels) -> Result<(), NoMemory> {
        self.add_heading(Some(line), labels)?;
        self.next = self.next.saturating_add(STEP);
        Ok(())
    }

    /// Begins an epoch of `n` members by a line: to the right of all marks and labels, and left of all later ones. The
    /// beginning is a mark.
    pub fn begin_epoch(&mut self, line: usize, labels: Labels, n: u8) -> Result<(), NoMemory> {
        if self.is_full() {
            self.is_cut = true;
            return Ok(());
        }
        self.next = self.end_of_labels();
        self.add_line(line, labels)?;
        let x = self.last;
        for edge in self.edges.iter_mut() {
            *edge = (*edge).max(x);
        }
        self.rules.push(x)?;
        self.end_levels(x)?;
        self.end_stretches(n, x);
        self.begin_stretches(self.n, n, x)?;
        self.n = n;
        self.most = self.most.max(n);
        self.begun = self.events.len();
        Ok(())
    }

    /// What is to the right of all labels, with room for the names of replicas behind the last rule.
    fn end_of_labels(&self) -> u32 {
        let mut end = self.next;
        for edge in self.edges.iter() {
            end = end.max(*edge);
        }
        match self.rules.last() {
            Some(rule) => end.max(rule.saturating_add(LEFT)),
            None => end,
        }
    }

    /// Whether a picture has no room for a mark more.
    fn is_full(&self) -> bool {
        self.events.len().saturating_add(self.rules.len()) >= MOST_MARKS
    }

    /// From here on no replica has delivered anything.
    fn end_levels(&mut self, x: u32) -> Result<(), NoMemory> {
        for replica in 0..self.n {
            self.levels.push(Level {
                at: Spot { replica, x },
                seen: 0,
                stable: 0,
            })?;
        }
        Ok(())
    }

    /// Ends the lines of replicas that are no members any more.
    fn end_stretches(&mut self, n: u8, x: u32) {
        for stretch in self.stretches.iter_mut() {
            if stretch.from.replica >= n && stretch.to.is_none() {
                stretch.to = Some(x);
            }
        }
    }

    /// From now on replicas go on side by side, not left of here.
    pub fn begin_settling(&mut self) {
        self.is_settling = true;
    }

    /// From now on each mark stands to the right of all others again.
    pub fn end_settling(&mut self) {
        self.is_settling = false;
        self.next = self.last.saturating_add(STEP);
    }

    /// Adds a mark, or notes that there are too many.
    pub fn add(&mut self, event: Event) -> Result<(), NoMemory> {
        if self.is_full() {
            self.is_cut = true;
            return Ok(());
        }
        self.events.push(event)?;
        Ok(())
    }

    /// Where a message of the present epoch was sent.
    pub fn sending_of(&self, id: MessageId) -> Option<Spot> {
        let mut marks = self.events.iter().skip(self.begun);
        let found = marks.find(|event| event.is_sending_of(id));
        found.map(|event| event.at)
    }

    /// Where a message of the present epoch came early at a replica.
    pub fn early_of(&self, replica: u8, id: MessageId) -> Option<u32> {
        let mut found = None;
        for event in self.events.iter().skip(self.begun) {
            if event.is_early(replica, id) {
                found = Some(event.at.x);
            }
        }
        found
    }

    /// Notes how many messages of each member a replica delivered, and how many it knows to be everywhere.
    pub fn note_level(
        &mut self,
        replica: u8,
        seen: &[u32],
        stable: &[u32],
    ) -> Result<(), NoMemory> {
        let seen = self.operations_within(seen);
        let stable = self.operations_within(stable);
        if let Some(at) = self.last_of(replica) {
            self.levels.push(Level { at, seen, stable })?;
        }
        Ok(())
    }

    /// Where the last mark of a replica stands in the present epoch.
    fn last_of(&self, replica: u8) -> Option<Spot> {
        let mut found = None;
        for event in self.events.iter().skip(self.begun) {
            if event.at.replica == replica {
                found = Some(event.at);
            }
        }
        found
    }

    /// How many operations of the script are among the first messages of each member in the present epoch, as many as the
    /// counts say.
    fn operations_within(&self, counts: &[u32]) -> usize {
        self.events
            .iter()
            .skip(self.begun)
            .filter(|event| event.is_operation_within(counts))
            .count()
    }
}
