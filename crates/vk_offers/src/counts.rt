ghost use Rattle.std.specs.Prelude.{◌≡◌, ◌∷◌, List, length, IfOk, IsTrue};
ghost use Rattle.vk_model.specs.Trace.Point.{Past};
ghost use Rattle.vk_model.specs.Sync.Node.{Node, nodes};
ghost use Rattle.vk_model.specs.Run.Runs.{Name};
ghost use Rattle.vk_model.specs.Run.CachedRuns.{is_synchronization};
ghost use Rattle.vk_order.specs.NodeViews.{act_of, node_of};
ghost use Rattle.vk_order.specs.Wide.{IsApartFrom};
ghost use Rattle.vk_events.specs.Happens.{AreFronts, is_finished};
ghost use Rattle.vk_offers.specs.IsOffers.{IsOffers, CountsBefore};
ghost use Rattle.vk_offers.specs.Inner.Rows.{AreCounted};

use crate::offers::{Offers, commands_before};
use std::alloc::AllocError;
use vk_order::{Act, Row};

impl Offers<'_> {
    /// Of each queue, how many commands from its first on are finished.
    pub(crate) fn fronts(&self) -> [usize; 4]
        ensures { (past : Past) (done : List Name) → IsOffers self.now past done → AreFronts (nodes past) (is_finished past done) result }
    {
        self.ready.fronts()
    }

    /// Of each row of a point that comes next, how many commands of each queue are before it, if it
    /// is a dependency, a wait or a signal.
    pub(crate) fn counts_of(&self, rows: &[Row<'_>]) -> Result<Vec<[usize; 4]>, AllocError>
        ensures lengths { IfOk result (λ counts. length counts.items ≡ length rows.now) }
        ensures counted { IfOk result (λ counts. (past : Past) (done : List Name) → IsOffers self.now past done → AreCounted (nodes past) rows.now counts.items) }
    {
        let mut counts = Vec::new(self.alloc);
        for row in rows {
            let before = self.before_row(row)?;
            counts.push(before)?;
        }
        Ok(counts)
    }

    /// The same of one row.
    fn before_row(&self, row: &Row<'_>) -> Result<[usize; 4], AllocError>
        ensures { IfOk result (λ before. (past : Past) (done : List Name) → IsOffers self.now past done
            → IsTrue (is_synchronization (act_of row.now.act)) → IsApartFrom (nodes past) (node_of (length (nodes past)) row.now)
            → CountsBefore (node_of (length (nodes past)) row.now ∷ nodes past) (node_of (length (nodes past)) row.now) before) }
    {
        match row.act {
            Act::Hosts(_) | Act::Runs(_) => Ok([0; 4]),
            _ => {
                let new_node = self.frontier.new_node(&row.point, &row.act)?;
                Ok(commands_before(&new_node))
            }
        }
    }
}
