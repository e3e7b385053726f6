// The law of ledges.
ghost use Rattle.ledge.specs.Graph.{LedgeGraph};

// Two free places are joined by a way exactly if the ledges of their floors are joined.
pub fn ledge_graph()
    ensures { LedgeGraph }
{}
