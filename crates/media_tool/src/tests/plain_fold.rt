//! What decisions say of files, folded in the plainest way: each file has its king and the number of its
//! class, and each step goes over all files and all pairs.

use crate::tests::decisions::Decision;
use crate::tests::lines::Code;
use std::alloc::{AllocError, Global};
use std::process::Abort;

/// Where a file stands. Its group is all files of its king.
#[derive(Clone, Copy)]
struct Place {
    file: u32,
    king: u32,
    class: u32,
}

impl Place {
    fn is_king(self) -> bool {
        self.file == self.king
    }
}

/// Two classes that aren't related.
#[derive(Clone, Copy)]
struct Pair {
    one: u32,
    other: u32,
}

impl Pair {
    fn is_of(self, one: u32, other: u32) -> bool {
        (self.one == one && self.other == other) || (self.one == other && self.other == one)
    }

    fn renamed(self, from: u32, to: u32) -> Pair {
        Pair {
            one: if self.one == from { to } else { self.one },
            other: if self.other == from { to } else { self.other },
        }
    }
}

#[derive(Drop)]
pub struct PlainFold {
    alloc: Global,
    places: Vec<Place>,
    pairs: Vec<Pair>,
    /// No file has had a class of this number or a higher one.
    next_class: u32,
}

impl PlainFold {
    pub fn new(alloc: Global, files: u32) -> Result<PlainFold, AllocError> {
        let mut places = Vec::new(alloc);
        for file in 0..files {
            places.push(Place {
                file,
                king: file,
                class: file,
            })?;
        }
        Ok(PlainFold {
            alloc,
            places,
            pairs: Vec::new(alloc),
            next_class: files,
        })
    }

    pub fn decide(&mut self, rt: &impl Abort, decision: Decision) -> Result<(), AllocError> {
        let a = self.place(rt, decision.a);
        let b = self.place(rt, decision.b);
        match decision.code {
            Code::Better => self.better(rt, a, b),
            Code::Worse => self.better(rt, b, a),
            Code::Same => self.same(rt, a, b),
            Code::Alternates => self.alternates(rt, a, b),
            Code::NotRelated => {
                if a.class != b.class {
                    self.pairs.push(Pair {
                        one: a.class,
                        other: b.class,
                    })?;
                }
            }
        }
        Ok(())
    }

    fn better(&mut self, rt: &impl Abort, a: Place, b: Place) {
        if a.king != b.king {
            if !b.is_king() {
                self.leave(b.file);
            }
            self.join_groups(rt, b.file, a.king);
        } else if b.is_king() {
            self.crown(b.file, a.file);
        }
    }

    fn same(&mut self, rt: &impl Abort, a: Place, b: Place) {
        if a.king == b.king {
            return;
        }
        if b.is_king() {
            self.join_groups(rt, b.file, a.king);
        } else if a.is_king() {
            self.join_groups(rt, a.file, b.king);
        } else {
            self.leave(b.file);
            self.join_groups(rt, b.file, a.king);
        }
    }

    fn alternates(&mut self, rt: &impl Abort, a: Place, b: Place) {
        if a.king == b.king {
            self.leave(if b.is_king() { a.file } else { b.file });
        }
        let one = self.place(rt, a.file).class;
        let other = self.place(rt, b.file).class;
        self.join_classes(one, other);
    }

    // The file becomes its own king, alone in a new class.
    fn leave(&mut self, file: u32) {
        let class = self.next_class;
        for place in self.places.iter_mut() {
            if place.file == file {
                place.king = file;
                place.class = class;
            }
        }
        self.next_class = class.wrapping_add(1);
    }

    // The files of the one king get the other.
    fn crown(&mut self, old: u32, new: u32) {
        for place in self.places.iter_mut() {
            if place.king == old {
                place.king = new;
            }
        }
    }

    // The group of the one king joins that of the other.
    fn join_groups(&mut self, rt: &impl Abort, joining: u32, king: u32) {
        let one = self.place(rt, king).class;
        let other = self.place(rt, joining).class;
        self.join_classes(one, other);
        self.crown(joining, king);
    }

    fn join_classes(&mut self, one: u32, other: u32) {
        if one == other {
            return;
        }
        self.pairs.retain(|pair| !pair.is_of(one, other));
        for pair in self.pairs.iter_mut() {
            *pair = pair.renamed(other, one);
        }
        for place in self.places.iter_mut() {
            if place.class == other {
                place.class = one;
            }
        }
    }

    fn place(&self, rt: &impl Abort, file: u32) -> Place {
        self.places
            .iter()
            .find(|place| place.file == file)
            .copied()
            .expect(rt, "a file of the fold")
    }

    fn are_apart(&self, one: u32, other: u32) -> bool {
        self.pairs.iter().any(|pair| pair.is_of(one, other))
    }

    // The kings of the other groups of a file's class.
    fn alternates_of(&self, of: Place) -> Result<Vec<u32>, AllocError> {
        let mut kings = Vec::new(self.alloc);
        for place in &self.places {
            if place.is_king() && place.class == of.class && place.king != of.king {
                kings.push(place.file)?;
            }
        }
        Ok(kings)
    }

    // The kings of all groups of the classes that aren't related to a file's class.
    fn not_related_of(&self, of: Place) -> Result<Vec<u32>, AllocError> {
        let mut kings = Vec::new(self.alloc);
        for place in &self.places {
            if place.is_king() && self.are_apart(place.class, of.class) {
                kings.push(place.file)?;
            }
        }
        Ok(kings)
    }

    fn members_of(&self, of: Place) -> Result<Vec<u32>, AllocError> {
        let mut members = Vec::new(self.alloc);
        for place in &self.places {
            if place.king == of.king {
                members.push(place.file)?;
            }
        }
        Ok(members)
    }

    /// The kings of two files, the lower first, where their groups may be a potential pair.
    pub fn pair_name(&self, rt: &impl Abort, one: u32, other: u32) -> Option<(u32, u32)> {
        let one = self.place(rt, one);
        let other = self.place(rt, other);
        let may_pair = one.class != other.class && !self.are_apart(one.class, other.class);
        may_pair.then_some((one.king.min(other.king), one.king.max(other.king)))
    }

    /// The relations of a file, as a session writes them.
    pub fn relations(&self, rt: &impl Abort, file: u32) -> Result<String, AllocError> {
        let place = self.place(rt, file);
        let mut text = String::new(self.alloc);
        write!(text, "{{\"king\":{}", place.king)?;
        write_list(&mut text, "members", &self.members_of(place)?)?;
        write_list(&mut text, "alternates", &self.alternates_of(place)?)?;
        write_list(&mut text, "not_related", &self.not_related_of(place)?)?;
        text.push('}')?;
        Ok(text)
    }
}

fn write_list(text: &mut String, name: &str, files: &[u32]) -> Result<(), AllocError> {
    write!(text, ",\"{name}\":[")?;
    for (at, file) in files.iter().enumerate() {
        if at != 0 {
            text.push(',')?;
        }
        write!(text, "{file}")?;
    }
    text.push(']')
}
