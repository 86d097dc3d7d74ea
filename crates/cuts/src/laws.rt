ghost use Rattle.market.specs.Kinds.{orders, blocks};
ghost use Rattle.cuts.specs.Kinds.{order_stands, block_stands};
ghost use Rattle.cuts.specs.RankLaws.{OrdersRank, BlocksRank, Nobody, Worked};

/// The laws of the lists in rank order, that nobody is cut without a gap, and two worked cases of open cuts.
pub fn laws_stand()
    ensures orders_rank { OrdersRank }
    ensures blocks_rank { BlocksRank }
    ensures no_order { Nobody orders order_stands }
    ensures no_block { Nobody blocks block_stands }
    ensures worked { Worked }
{}
