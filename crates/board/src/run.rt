// The records of a block that is not refused, each answered by a row where the last row ended. No board is copied: one controller at a
// time is copied out, changed and put back, and controllers that nothing happens to are passed over.
ghost use Rattle.std.specs.Prelude.{◌≡◌, true, false, ◌++◌, ◌+◌, ◌*◌, ◌<◌, ◌≤◌, length, get_or, drop};
ghost use Rattle.kit.specs.Support.Laid.{kit_of};
ghost use Rattle.records.specs.Records.{is_crossing, well, first_ill, crossings_in};
ghost use Rattle.records.specs.Refusal.{LIFETIME, records_in};
ghost use Rattle.board.specs.Run.{ran, rows_of, stepped, row_of};
ghost use Rattle.board.specs.Sound.{sound_board};
ghost use Rattle.board.specs.Support.Loop.{Watches, Comes};

use crate::Board;
use kit::Kit;
use records::{RECORD, ROW};
use still::Sight;

// What is told beside the board from one record to the next: what the last crossing saw, the status that each of the eight shows, and
// whether all of them are at rest under its classes.
#[derive(Clone, Copy)]
struct Watch {
    sight: Sight,
    shown: [u8; 8],
    calm: bool,
}

impl Board {
    // A command, and its row.
    fn obey(&mut self, kit: &Kit, rec: &[u8]) -> [u8; 12]
        requires { (kit.now ≡ kit_of self.old.settings) × (length rec.now ≡ 24) × (well rec.now ≡ true) × (is_crossing rec.now ≡ false) }
        ensures { (self.new ≡ stepped self.old rec.now) × (result ≡ row_of self.old rec.now) }
    {
        let taken = self.ptcs[rec[1] as usize].command(kit.waits, rec[2]);
        records::command_row(taken)
    }

    // A crossing, and its row. Only the controllers that are due are looked at.
    fn cross(&mut self, kit: &Kit, busy: &[u8; 4096], watch: &mut Watch, rec: &[u8]) -> [u8; 12]
        requires { (Comes kit.now busy.now self.old watch.old rec.now) × (is_crossing rec.now ≡ true) }
        ensures { (self.new ≡ stepped self.old rec.now) × (result ≡ row_of self.old rec.now) × Watches kit.now self.new watch.new }
    {
        let sight = watch
            .sight
            .next(kit, busy, self.clock, watch.calm, &mut self.held, rec);
        let holder = self.ptcs[(sight.turn.holder % 8) as usize];
        let scene = sight.scene(kit, holder, &self.marks, self.clock);
        let mut bytes = [0u8; 8];
        let mut calm = true;
        let mut k = still::next_due(sight.due, 0);
        while k < 8 {
            let class = sight.classes[k];
            let asked = records::asked(sight.requests, k);
            let crossed = self.ptcs[k].crossed(
                &kit.times, kit.waits, kit.gap, scene, k as u32, class, asked,
            );
            self.ptcs[k] = crossed.ptc;
            bytes[k] = records::row_byte(crossed.code, crossed.sent, crossed.cal);
            watch.shown[k] = states::status(crossed.ptc.state);
            calm = plain::both(calm, crossed.ptc.is_at_rest(class));
            k = still::next_due(sight.due, k + 1);
        }
        let mark = u64::from(records::carries(bytes));
        throttle::pass(&mut self.marks, self.clock.crossings, mark);
        self.clock = eight::clock_after(self.clock, kit.orbit, sight.marker, bytes);
        self.turn = sight.turn;
        watch.sight = sight;
        watch.calm = calm;
        records::crossing_row(bytes, watch.shown)
    }

    fn step(&mut self, kit: &Kit, busy: &[u8; 4096], watch: &mut Watch, rec: &[u8]) -> [u8; 12]
        requires { Comes kit.now busy.now self.old watch.old rec.now }
        ensures { (self.new ≡ stepped self.old rec.now) × (result ≡ row_of self.old rec.now) × Watches kit.now self.new watch.new }
    {
        if rec[0] == 0 {
            return self.cross(kit, busy, watch, rec);
        }
        watch.calm = false;
        self.obey(kit, rec)
    }

    pub(crate) fn run(&mut self, log: &[u8], rows: &mut [u8])
        requires { (sound_board self.old ≡ true) × (length log.now ≡ 24 * records_in log.now) × (12 * records_in log.now ≤ length rows.old) × (first_ill (records_in log.now) log.now ≡ records_in log.now) × (self.old.clock.crossings + crossings_in (records_in log.now) log.now ≤ LIFETIME) }
        ensures { (self.new ≡ ran (records_in log.now) self.old log.now) × (rows.new ≡ rows_of (records_in log.now) self.old log.now ++ drop (12 * records_in log.now) rows.old) }
    {
        let kit = Kit::of(self.settings);
        let busy = kit::busy_of(self.settings);
        let mut watch = Watch {
            sight: Sight::first(self.turn, &kit, &self.held),
            shown: [0u8; 8],
            calm: false,
        };
        for i in 0..log.len() / RECORD {
            let rec = &log[RECORD * i..RECORD * i + RECORD];
            let row = self.step(&kit, &busy, &mut watch, rec);
            records::put_row(&mut rows[ROW * i..], row);
        }
    }
}
