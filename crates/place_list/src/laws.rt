//! The laws on the nodes of a tree. The functions here do nothing: each has a law as its contract.

ghost use Rattle.place_list.specs.Nodes.{NodesAreNumbered, OpenersOpenScopes, SitesAreNodes};

/// The law that nodes have the numbers of their printing order, from 0.
pub fn nodes_are_numbered()
    ensures { NodesAreNumbered }
{}

/// The law that the nodes which open a scope open the scopes of the tree, in the order of their numbers.
pub fn openers_open_scopes()
    ensures { OpenersOpenScopes }
{}

/// The law that the sites of a tree are the nodes that are places, with what holds where they stand.
pub fn sites_are_nodes()
    ensures { SitesAreNodes }
{}
