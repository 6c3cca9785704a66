#![tactic(auto)]
// The writer's first pass ("The write list"): it checks every frame, and settles the containers' sizes and all IDs. It cannot reach the output.
ghost use Rattle.std.specs.Prelude.{◌≡◌, true, false, ◌+◌, ◌^◌, ◌≤◌, ◌<◌, length, Ok};
ghost use Rattle.number.specs.VarUInt.{encoded};
ghost use Rattle.format.specs.Payload.{payload};
ghost use Rattle.frames.specs.Container.{size_by, packed};
ghost use Rattle.frames.specs.WriteList.{is_writable};
ghost use Rattle.run.specs.Run.{join};
ghost use Rattle.measure.specs.Passes.{is_leaf, leaf_measured, LeafSmall, ClosedBy, PayloadAt, FieldAt, ContentsAt, Lent};
ghost use Rattle.measure.specs.Settle.{measurement, settled_within, settled};

use format::Kind;
use frame::LeafFrame;
use frames::{Refusal, Refused};
use notes::Notes;
use settle::{Measured, Settled};

// ---- a leaf and a container

#[tactic(auto, using(crate::proofs::SmallLaws::width_laws))]
fn width(n: usize) -> usize
    ensures { (result ≡ length (encoded n)) × (1 ≤ result) × (result ≤ 9) }
{
    encode::length(n as u64)
}

// The fields of a container so far: the ID that they share, how many they are, and what their names and payloads take.
#[derive(Clone, Copy)]
pub struct Contents {
    pub shared: u8,
    pub count: usize,
    pub sum: usize,
}

impl Contents {
    // With one field more: its ID, and what its name and payload take.
    fn with(self, id: u8, size: usize) -> Contents
        requires { (self.count + 1 < 2 ^ 64) × (self.sum + size < 2 ^ 64) }
        ensures { result ≡ record { shared = join self.shared id; count = self.count + 1; sum = self.sum + size } }
    {
        Contents {
            shared: run::join(self.shared, id),
            count: self.count + 1,
            sum: self.sum + size,
        }
    }

    // The size of the container.
    #[tactic(auto, using(crate::proofs::ContainerFits::size_few))]
    fn size(self, named: bool) -> usize
        requires { (self.count ≤ 65536) × (self.sum ≤ 655360) }
        ensures { (result ≡ size_by named self.shared self.count self.sum) × (result ≤ 10 + self.count + self.sum) }
    {
        container::size_of(named, self.shared, self.count as u32, self.sum as u32)
    }

    // The work number of the container.
    #[tactic(auto, using(crate::proofs::ContainerFits::pack_fits))]
    fn pack(self, named: bool, size: usize) -> u32
        requires { (self.count ≤ 65536) × (size ≤ 1048576) }
        ensures { result ≡ packed named self.shared self.count size }
    {
        container::pack(named, self.shared, self.count as u32, size as u32) as u32
    }

    // The container, closed at a place of the list: its work number is stored, the k-th. The name before it takes `before` bytes, and `opened` is the next
    // number. Inlined, since `named` is known at each call: else a list that is 32 deep takes 8 percent more instructions.
    #[inline(always)]
    #[tactic(auto, using(crate::proofs::SmallLaws::closed_by))]
    fn closed(
        self,
        named: bool,
        at: usize,
        before: usize,
        work: &mut [u32],
        k: usize,
        opened: usize,
    ) -> Measured
        requires { (self.count ≤ 65536) × (self.sum ≤ 655360) × (at ≤ 65536) × (before ≤ 65536) }
        ensures { ClosedBy named self.shared self.count self.sum at before k opened work.old work.new (Ok result) }
    {
        let size = self.size(named);
        container::store(work, k, self.pack(named, size));
        Measured {
            next: at + 1,
            id: container::container_id(named, run::is_uniform(named, self.shared)),
            size: before + (width(size) + size),
            opened,
        }
    }
}

// A kind of the write list that opens no container.
fn is_leaf(kind: Kind) -> bool
    ensures { result ≡ is_leaf kind }
{
    !matches!(kind, Kind::Object | Kind::Array)
}

// ---- the pass

fn measured_leaf(
    leaf: Result<LeafFrame, Refusal>,
    at: usize,
    before: usize,
    opened: usize,
) -> Result<Measured, Refused>
    requires { LeafSmall leaf before }
    ensures { result ≡ leaf_measured at before opened leaf }
{
    match leaf {
        Ok(read) => Ok(Measured {
            next: read.end,
            id: read.id,
            size: before + read.size,
            opened,
        }),
        Err(refusal) => Err(refusal.at(at)),
    }
}

// The payload of the frame at a position, from `start` on; `left` levels are left inside it. It is checked, and what it takes as encoded is settled, with the
// name before it. Its containers' numbers go from k on.
#[cycle(measure_fields_measure_items_measure_payload)]
fn measure_payload(
    list: &[u8],
    at: usize,
    start: usize,
    kind: Kind,
    table: &mut [u64],
    work: &mut [u32],
    k: usize,
    left: u32,
) -> Result<Measured, Refused>
    requires { (at < start) × (start ≤ length list.now) × (is_writable (payload kind) ≡ true) × Lent list.now at k }
    ensures { PayloadAt left list.now at start kind k work.old work.new result }
{
    let before = start - (at + 1);
    match kind {
        Kind::Object => measure_fields(list, start, before, table, work, k, left),
        Kind::Array => measure_items(list, start, before, table, work, k, left),
        _ => measured_leaf(frame::leaf_at(list, start, kind), at, before, k),
    }
}

// The items of an array, up to the close. The name before it takes `before` bytes. (Most items are leaves: these are measured here, and only what has
// contents by a call with all that those need. So it is with fields.)
#[cycle(measure_fields_measure_items_measure_payload)]
fn measure_items(
    list: &[u8],
    at: usize,
    before: usize,
    table: &mut [u64],
    work: &mut [u32],
    k: usize,
    left: u32,
) -> Result<Measured, Refused>
    requires { (at ≤ length list.now) × (before ≤ at) × (k < at) × Lent list.now at k }
    ensures { ContentsAt left list.now at before false k work.old work.new result }
{
    let mut p = at;
    let mut j = k + 1;
    let mut contents = Contents {
        shared: 0,
        count: 0,
        sum: 0,
    };
    while p < list.len() {
        if list[p] == 0 {
            return Ok(contents.closed(false, p, before, work, k, j));
        }
        let frame = match frame::front_at(list, p, false, left) {
            Ok(frame) => frame,
            Err(refusal) => return Err(refusal.at(p)),
        };
        let kind = frame.kind;
        let start = frame.start;
        if is_leaf(kind) {
            let leaf = match frame::leaf_at(list, start, kind) {
                Ok(leaf) => leaf,
                Err(refusal) => return Err(refusal.at(p)),
            };
            contents = contents.with(leaf.id, start - (p + 1) + leaf.size);
            p = leaf.end;
        } else {
            let field = measure_payload(list, p, start, kind, table, work, j, left - 1)?;
            contents = contents.with(field.id, field.size);
            p = field.next;
            j = field.opened;
        }
    }
    Err(Refusal::ListEnds.at(p))
}

// The fields of an object, up to the close. Of fewer than two names none stands twice.
#[cycle(measure_fields_measure_items_measure_payload)]
fn measure_fields(
    list: &[u8],
    at: usize,
    before: usize,
    table: &mut [u64],
    work: &mut [u32],
    k: usize,
    left: u32,
) -> Result<Measured, Refused>
    requires { (at ≤ length list.now) × (before ≤ at) × (k < at) × Lent list.now at k }
    ensures { ContentsAt left list.now at before true k work.old work.new result }
{
    let mut p = at;
    let mut j = k + 1;
    let mut notes = Notes::Few(0);
    let mut reach: usize = 0;
    let mut contents = Contents {
        shared: 0,
        count: 0,
        sum: 0,
    };
    while p < list.len() {
        let few = contents.count < 2;
        if list[p] == 0 {
            let done = Ok(contents.closed(true, p, before, work, k, j));
            if few {
                return done;
            }
            return naming::ended(list, at, table, notes, reach, left, done);
        }
        let frame = match frame::front_at(list, p, true, left) {
            Ok(frame) => frame,
            Err(refusal) => {
                let refused = Err(refusal.at(p));
                if few {
                    return refused;
                }
                return naming::ended(list, at, table, notes, reach, left, refused);
            }
        };
        let kind = frame.kind;
        let start = frame.start;
        notes = naming::note(list, at, table, notes, frame.begin, start);
        reach = p - at + 1;
        if is_leaf(kind) {
            let leaf = match frame::leaf_at(list, start, kind) {
                Ok(leaf) => leaf,
                Err(refusal) => {
                    let refused = Err(refusal.at(p));
                    return naming::ended(list, at, table, notes, reach, left, refused);
                }
            };
            contents = contents.with(leaf.id, start - (p + 1) + leaf.size);
            p = leaf.end;
        } else {
            let held = notes::held(notes);
            let measured = measure_payload(
                list,
                p,
                start,
                kind,
                &mut table[held..],
                work,
                j,
                left - 1,
            );
            let Ok(field) = measured else {
                return naming::ended(list, at, table, notes, reach, left, measured);
            };
            contents = contents.with(field.id, field.size);
            p = field.next;
            j = field.opened;
        }
    }
    let refused = Err(Refusal::ListEnds.at(p));
    naming::ended(list, at, table, notes, reach, left, refused)
}

// ---- the whole

// The top field of a list that is not empty.
#[tactic(auto, using(crate::proofs::FieldCases::top_laws))]
fn measure_top(
    list: &[u8],
    table: &mut [u64],
    work: &mut [u32],
    left: u32,
) -> Result<Measured, Refused>
    requires { (0 < length list.now) × Lent list.now 0 0 }
    ensures { FieldAt left list.now 0 false 0 work.old work.new result }
{
    match frame::front_at(list, 0, false, left) {
        Ok(frame) => measure_payload(list, 0, frame.start, frame.kind, table, work, 0, left - 1),
        Err(refusal) => Err(refusal.at(0)),
    }
}

// A list that is not too long. The table is for the names of its objects: a longer one saves time.
fn measure_within(
    list: &[u8],
    room: usize,
    work: &mut [u32],
    table: &mut [u64],
    left: u32,
) -> Result<Settled, Refused>
    requires { length list.now ≤ 65536 }
    ensures { measurement result work.new ≡ settled_within left list.now room work.old }
{
    container::clear(work);
    if list.is_empty() {
        return Err(Refusal::ListEnds.at(0));
    }
    if list[0] == 0 {
        return Err(Refusal::NoneOpen.at(0));
    }
    let measured = measure_top(list, table, work, left);
    let answer = settle::decided(measured, list.len(), room, work.len());
    if answer.is_err() {
        container::clear(work);
    }
    answer
}

// A list of up to so many bytes has few names: a small table does for them.
const SHORT: usize = 1536;

// The first pass over any list. The output has `room` bytes. What is left in the work numbers is for the second pass, or all zero at a refusal.
pub fn measure(list: &[u8], room: usize, work: &mut [u32]) -> Result<Settled, Refused>
    ensures { measurement result work.new ≡ settled list.now room work.old }
{
    if format::LENGTH < list.len() {
        container::clear(work);
        return Err(Refusal::ListTooLong.at(0));
    }
    if list.len() <= SHORT {
        let mut table = [0u64; 256];
        return measure_within(list, room, work, &mut table, format::DEPTH);
    }
    let mut table = [0u64; 18432];
    measure_within(list, room, work, &mut table, format::DEPTH)
}
