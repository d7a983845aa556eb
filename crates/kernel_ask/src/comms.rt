//! The open comms.
ghost use Rattle.std.specs.Prelude.{◌≡◌, [], map, string_bytes, IfOk, OnOk, OnErr};
ghost use Rattle.kernel_ask.specs.Comms.{is_open as is_open_of, can_open as can_open_of, opened, without_id};

use crate::limit::COMM_LIMIT;
use std::alloc::{AllocError, Global};
use std::collections::BTreeSet;
use std::marker::Model;

/// The open comms by their ids. Contracts see the ids, in the order of their octets.
#[derive(Drop)]
pub struct Comms {
    ids: BTreeSet<String>,
    alloc: Global,
}

impl Model for Comms {
    ghost use Rattle.std.specs.Prelude.{List, ℕ, map, string_bytes};

    ghost Value = { List (List ℕ) };

    ghost view = { λ a. map string_bytes a.ids.keys };
}

impl Comms {
    /// No comm is open. It takes no memory.
    pub fn new(alloc: Global) -> Comms
        ensures { result ≡ [] }
    {
        Comms {
            ids: BTreeSet::new(alloc),
            alloc,
        }
    }

    /// Whether the comm of this id is open.
    pub fn is_open(&self, id: &str) -> bool
        ensures { result ≡ is_open_of self.now id.now }
    {
        self.ids.contains(id)
    }

    /// Whether a comm of this id can be opened: it is not open, and fewer than [`COMM_LIMIT`] are.
    pub fn can_open(&self, id: &str) -> bool
        ensures { result ≡ can_open_of self.now id.now }
    {
        self.ids.len() < COMM_LIMIT && !self.is_open(id)
    }

    /// Opens a comm, and tells whether it did: an open one stays as it is, and of more than [`COMM_LIMIT`] none is opened. The
    /// only error is want of memory, and it leaves the comms as they were.
    pub fn open(&mut self, id: String) -> Result<bool, AllocError>
        ensures told { IfOk result (λ b. b ≡ can_open_of self.old (string_bytes id)) }
        ensures ok { OnOk result (self.new ≡ opened self.old (string_bytes id)) }
        ensures err { OnErr result (self.new ≡ self.old) }
    {
        if !self.can_open(id.as_str()) {
            return Ok(false);
        }
        self.ids.insert(id)?;
        Ok(true)
    }

    /// Closes a comm, and tells whether it was open. It takes no memory.
    pub fn close(&mut self, id: &str) -> bool
        ensures told { result ≡ is_open_of self.old id.now }
        ensures closed { self.new ≡ without_id self.old id.now }
    {
        self.ids.remove(id)
    }

    /// The ids of the open comms, in the order of their octets. The only error is want of memory.
    pub fn list(&self) -> Result<Vec<String>, AllocError>
        ensures { IfOk result (λ v. map string_bytes v.items ≡ self.now) }
    {
        let mut ids = Vec::new(self.alloc);
        for id in &self.ids {
            ids.push(id.clone()?)?;
        }
        Ok(ids)
    }
}
