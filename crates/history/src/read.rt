// The read-out of a store: its changes, oldest first, 7 bytes each.
ghost use Rattle.std.specs.Prelude.{◌≡◌, true, ◌+◌, ◌*◌, ◌≤◌, length};
ghost use Rattle.text.specs.Bytes.{put};
ghost use Rattle.history.specs.Store.{sound_store};
ghost use Rattle.history.specs.Scan.{found};
ghost use Rattle.history.specs.Read.{bytes_of, bytes_of_all, read_bytes, read_length, read_out, read_of};

use crate::{Change, Scan, Store, Tally};
use answer::{Answer, Refusal};

// The bytes of a change: its orbit count, its crossing number and its code in 4, 2 and 1.
const CHANGE: usize = 7;

// Lays the bytes of a word that is a change, and answers the place after them; any other word has none.
#[tactic(auto, using(text::proofs::Bytes::put_nil), unfolding(crate::specs::Read::bytes_of_all))]
fn put_word(out: &mut [u8], at: usize, scan: Scan, word: u16) -> usize
    requires { at + length (bytes_of_all (found scan word)) ≤ length out.old }
    ensures { (result ≡ at + length (bytes_of_all (found scan word))) × (out.new ≡ put out.old at (bytes_of_all (found scan word))) }
{
    if scan.is_change(word) {
        return text::put_bytes(out, at, &scan.change(word).bytes());
    }
    at
}

impl Store {
    #[tactic(auto, using(crate::proofs::Keeps::bounds, crate::proofs::Scans::laying), unfolding(crate::specs::Scan::read, crate::specs::Read::bytes_of_all))]
    fn put_changes(&self, out: &mut [u8])
        requires { (sound_store self.now ≡ true) × (length (read_bytes self.now) ≤ length out.old) }
        ensures { out.new ≡ put out.old 0 (read_bytes self.now) }
    {
        let mut scan = Scan::START;
        let mut at = 0;
        for word in self.ring() {
            at = put_word(out, at, scan, word);
            scan = scan.after(word);
        }
    }

    // How many bytes the read-out has; 0 for a store that is refused.
    #[tactic(auto, using(crate::proofs::Keeps::few, crate::proofs::Scans::bytes_long), unfolding(crate::specs::Read::read_length))]
    pub fn read_length(&self) -> usize
        ensures { result ≡ read_length self.now }
    {
        self.tally().map_or(0, Tally::bytes)
    }

    // STORE, then ROOM with the bytes needed; a success writes exactly the retained changes.
    #[tactic(auto, using(crate::proofs::Keeps::few, crate::proofs::Scans::bytes_long), unfolding(crate::specs::Read::read_of))]
    pub fn read(&self, out: &mut [u8]) -> Answer
        ensures { read_out result out.new ≡ read_of self.now out.old }
    {
        let needed = self.tally().ok_or(Refusal::Store)?.bytes();
        if out.len() < needed {
            return Err(Refusal::Room(needed));
        }
        self.put_changes(out);
        Ok(())
    }
}

impl Tally {
    // The bytes of the read-out.
    fn bytes(self) -> usize
        requires { self.changes ≤ 1024 }
        ensures { result ≡ 7 * self.changes }
    {
        CHANGE * self.changes
    }
}

impl Change {
    // What the read-out has of it.
    #[tactic(auto, unfolding(crate::specs::Read::bytes_of))]
    fn bytes(self) -> [u8; CHANGE]
        ensures { result ≡ bytes_of self }
    {
        let [orbit_0, orbit_1, orbit_2, orbit_3] = self.orbit.to_le_bytes();
        let [number_0, number_1, ..] = self.number.to_le_bytes();
        [
            orbit_0, orbit_1, orbit_2, orbit_3, number_0, number_1, self.code,
        ]
    }
}
