//! Laws of connections.
ghost use Rattle.std.specs.Prelude.{ℕ, List, Option};
ghost use Rattle.zot_cluster.specs.Entries.{Records};
ghost use Rattle.zot_cluster.specs.Views.{Follows, IsOf, View as AView};
ghost use Rattle.zot_repo.specs.declared.row_config.RowConfig.{RowConfig as AConfig};
ghost use Rattle.zot_rows.specs.Histories.{RowStates};
ghost use Rattle.zot_session.specs.Exchanges.{Exchange as AnExchange};

/// A connection's entries follow all that was seen before it: where a view is of the rows, the same view with the entries of the connection behind is of the rows afterwards. So what was seen is the beginning of what is seen later, over as many connections, at as many members, as there are.
pub fn connections_follow()
    ensures { (config : AConfig) (member : ℕ) (told : Option ℕ) (view : AView) (before after : RowStates) (exchanges : List AnExchange) → IsOf view before → Records config member told before exchanges after → Follows config member told view exchanges after }
{}
