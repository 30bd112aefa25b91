// A session's doors.
ghost use Rattle.std.specs.Prelude.{◌≡◌, ℕ, ◌+◌, ◌-◌, ◌^◌, ◌≤◌, ◌↔◌, [], ◌∷◌, length, IfOk, OnOk, OnErr, All};
ghost use Rattle.std.specs.Prelude.{map, min, sum_by, Some, slice_get, slice_range};
ghost use Rattle.std.specs.Borrow.{sem};
ghost use Rattle.page_store.specs.House.{IsProvider};
ghost use Rattle.page_store.specs.Page.{IsAmong};
ghost use Rattle.page_store.specs.Answers.{OnGot, OnGetFailed};
ghost use Rattle.page_fan.specs.Counts.{NoneFell, RoseAt, OthersStay};

use crate::stand::Stand;
use page_store::{Door, DoorMaker, GetAnswer, Houses, NoMemory, PageRef};
use std::alloc::Global;
use std::marker::Model;

/// One door to each of the providers, 1 to the number of doors.
pub struct Doors<D> {
    pub(crate) stands: Vec<Stand<D>>,
}

// By hand, so that it is one call wherever a session's doors are let go: a derived drop stands, with all its calls, at each such place.
impl<D: Drop> Drop for Doors<D> {
    fn drop(self) {
        let Doors { stands: _ } = self;
    }
}

impl<D> Model for Doors<D> {
    ghost use Rattle.std.specs.Prelude.{List, map};
    ghost use Rattle.std.specs.Coded.{coded_list};

    ghost Value = { List D };

    ghost coded = { coded_list D.code };

    ghost view = { λ d. map (λ s. s.door) d.stands.items };
}

impl<D: Door> Doors<D> {
    ghost use Rattle.page_fan.specs.Lending.{LendsDoor};
    ghost use Rattle.page_fan.specs.Made.{AreMade};
    ghost use Rattle.page_fan.specs.Used.{IsTrueAt, StayTrue, CalledOnce};
    ghost use Rattle.page_store.specs.Calls.{Traffic, AllCameBack};

    /// A door to each of the providers. Where memory is refused, the doors that were made go back to the maker.
    pub fn new<M: DoorMaker<Door = D>>(
        alloc: Global,
        maker: &mut M,
        providers: u32,
    ) -> Result<Doors<D>, NoMemory>
        ensures count { IfOk result (λ doors. length doors ≡ providers) }
        ensures fresh { IfOk result (λ doors. All (λ door. D.faults door ≡ 0) doors) }
        ensures each { IfOk result (λ doors. AreMade (M.makes maker.old) doors) }
        ensures handed_out { OnOk result (Traffic M.hands_out M.takes_back providers 0 maker.old maker.new) }
        ensures all_back { OnErr result (AllCameBack M.hands_out M.takes_back maker.old maker.new) }
        ensures true_doors { M.is_true maker.old → IfOk result (λ doors. All D.is_true doors) }
        ensures count_stays { M.faults maker.new ≡ M.faults maker.old }
        ensures truth_stays { M.is_true maker.old ↔ M.is_true maker.new }
        ensures plan_stays { (n : ℕ) (door : _) → M.makes maker.old n door ↔ M.makes maker.new n door }
    {
        let mut stands = Vec::with_capacity(alloc, providers as usize)?;
        for before in 0..providers {
            match maker.make(before + 1) {
                Ok(door) => stands.push_reserved(Stand::new(alloc, door)),
                Err(NoMemory) => {
                    Doors { stands }.back(maker);
                    return Err(NoMemory);
                }
            }
        }
        Ok(Doors { stands })
    }

    /// Hands each door back to the maker, which adds the doors' counts to its own. It takes no memory.
    pub fn back<M: DoorMaker<Door = D>>(self, maker: &mut M)
        ensures adds { M.faults maker.old ≤ 2 ^ 64 - 1
            → M.faults maker.new ≡ min (M.faults maker.old + sum_by D.faults self) (2 ^ 64 - 1) }
        ensures taken_back { Traffic M.hands_out M.takes_back 0 (length self) maker.old maker.new }
        ensures rises { min (M.faults maker.old + sum_by D.faults self) (2 ^ 64 - 1) ≤ M.faults maker.new }
        ensures truth_stays { M.is_true maker.old ↔ M.is_true maker.new }
        ensures plan_stays { (n : ℕ) (door : _) → M.makes maker.old n door ↔ M.makes maker.new n door }
    {
        let Doors { mut stands } = self;
        while let Some(stand) = stands.pop() {
            maker.back(stand.into_door());
        }
        stands.destroy_empty();
    }

    /// The door to the provider.
    pub fn door(&mut self, provider: u32) -> &mut D
        requires { IsProvider (length self.old) provider }
        ensures* writes_back { sem 𝓛 (LendsDoor D.row self.entry provider result) }
        ensures this { slice_get self.old (provider - 1) ≡ Some result.now }
    {
        let index = provider as usize - 1;
        &mut self.stands[index].door
    }

    // Gets the page's bytes from byte `from` on, by the door to its provider.
    pub(crate) fn get(
        &mut self,
        houses: &Houses,
        page: &PageRef,
        from: u32,
        out: &mut [u8],
    ) -> GetAnswer
        requires here { IsAmong houses.now page.now.spot }
        requires served { IsProvider (length self.old) page.now.spot.provider }
        requires room { from + length out.old ≤ length page.now.bytes }
        ensures got { IsTrueAt D.is_true self.old page.now.spot.provider
            → OnGot result (out.new ≡ slice_range page.now.bytes from (from + length out.old)) }
        ensures failed { OnGetFailed result
            (RoseAt (map D.faults self.old) (map D.faults self.new) page.now.spot.provider) }
        ensures others { OthersStay (page.now.spot ∷ []) (map D.faults self.old) (map D.faults self.new) }
        ensures none_fell { NoneFell (map D.faults self.old) (map D.faults self.new) }
        ensures called { CalledOnce D.called page.now.spot.provider self.old self.new }
        ensures count { length self.new ≡ length self.old }
        ensures stay_true { StayTrue D.is_true self.old self.new }
    {
        let provider = page.provider();
        let house = houses.house(provider);
        let stand = &mut self.stands[provider as usize - 1];
        stand.door.get(house, page, from, out)
    }
}
