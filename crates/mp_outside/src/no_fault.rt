// Files and a sink that never fail.
ghost use Rattle.std.specs.Prelude.{◌≡◌, [], Some, OnOk, OnErr, option_map};

use crate::copy::copy_from;
use crate::files::{Failed, Files, OutFault};
use crate::sink::Sink;
use mp_number::NoMemory;
use std::alloc::Global;
use std::collections::BTreeMap;

/// Files in memory that never fail. Under each name that wasn't put or created is the empty file.
/// All counts stay 0.
#[derive(Drop)]
pub struct NoFaultFiles {
    alloc: Global,
    files: BTreeMap<String, Vec<u8>>,
}

impl NoFaultFiles {
    ghost use Rattle.std.specs.Prelude.{ℕ, List};
    ghost use Rattle.mp_outside.specs.Contents.{SameHeld, OnlyHeldAt};
    ghost use Rattle.mp_outside.specs.NoFault.{content};

    /// The empty file under each name.
    pub fn new(alloc: Global) -> NoFaultFiles
        ensures { (name : List ℕ) → content result name ≡ Some [] }
    {
        NoFaultFiles {
            alloc,
            files: BTreeMap::new(alloc),
        }
    }

    /// Holds these bytes under the name. Without memory for them nothing changes.
    #[tactic(auto, using(std::proofs::lemmas::Map::Text::text_keys))]
    pub fn put(&mut self, name: &str, bytes: &[u8]) -> Result<(), NoMemory>
        ensures put { OnOk result (content self.new name.now ≡ Some bytes.now) }
        ensures others { OnlyHeldAt name.now (content self.old) (content self.new) }
        ensures err { OnErr result (SameHeld (content self.old) (content self.new)) }
    {
        let bytes = bytes.to_vec(self.alloc)?;
        let key = String::from_str(self.alloc, name)?;
        self.files.insert(key, bytes)?;
        Ok(())
    }

    /// The bytes under the name. Something is held under each name, so it is never `None`.
    pub fn get(&self, name: &str) -> Option<&[u8]>
        ensures { option_map (λ bytes. bytes.now) result ≡ content self.now name.now }
    {
        match self.files.get(name) {
            Some(bytes) => Some(bytes.as_slice()),
            None => Some(&[]),
        }
    }
}

impl Files for NoFaultFiles {
    ghost use Rattle.mp_outside.specs.NoFault.{files_seen};

    ghost seen = { files_seen };

    fn read_at(&mut self, name: &str, at: u64, buf: &mut [u8]) -> Result<usize, Failed> {
        match self.files.get(name) {
            None => Ok(0),
            Some(bytes) => Ok(copy_from(bytes, at, buf)),
        }
    }

    #[tactic(auto, using(std::proofs::lemmas::Map::Text::text_keys))]
    fn create(&mut self, name: &str) -> Result<(), OutFault> {
        self.put(name, &[])?;
        Ok(())
    }

    #[tactic(auto, using(std::proofs::lemmas::Map::Text::text_keys))]
    fn append(&mut self, name: &str, piece: &[u8]) -> Result<(), OutFault> {
        match self.files.get_mut(name) {
            Some(bytes) => bytes.extend_from_slice(piece)?,
            None => self.put(name, piece)?,
        }
        Ok(())
    }
}

/// A sink in memory that never fails. Its count stays 0.
#[derive(Drop)]
pub struct NoFaultSink {
    bytes: Vec<u8>,
}

impl NoFaultSink {
    ghost use Rattle.mp_outside.specs.NoFault.{sink_bytes};

    /// Nothing written.
    pub fn new(alloc: Global) -> NoFaultSink
        ensures { sink_bytes result ≡ [] }
    {
        NoFaultSink {
            bytes: Vec::new(alloc),
        }
    }

    /// What was written.
    pub fn bytes(&self) -> &[u8]
        ensures { result.now ≡ sink_bytes self.now }
    {
        self.bytes.as_slice()
    }
}

impl Sink for NoFaultSink {
    ghost use Rattle.mp_outside.specs.NoFault.{sink_seen};

    ghost seen = { sink_seen };

    fn write(&mut self, piece: &[u8]) -> Result<(), OutFault> {
        self.bytes.extend_from_slice(piece)?;
        Ok(())
    }
}
