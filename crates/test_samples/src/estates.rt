//! Further estates, and tables that stand behind an estate, as texts in TOML.

/// Three waves of one machine each, db, web and app, at places of their own; and spare, which is in
/// no group, on a pair of its own.
pub const WAVES: &str = r#"form = 1
map = [
{kind="network", side="B", from="lan", to="lan-b"},
{kind="folder", side="B", from="prod", to="dr"},
{kind="pool", side="B", from="gold", to="gold-b"},
{kind="test", side="B", from="lan-b", to="bubble-b"},
{kind="test", side="A", from="lan", to="bubble-a"},
{kind="folder", side="B", from="prod/sql", to="dr/data"},
{kind="pool", side="B", from="tin", to="tin-b"},
]
[[machine]]
name = "db"
network = "lan"
folder = "prod/sql"
pool = "gold"
datastores = ["ds1"]
[[machine]]
name = "web"
network = "lan"
folder = "prod/web"
pool = "gold"
datastores = ["ds1"]
[[machine]]
name = "app"
network = "lan"
folder = "prod/app"
pool = "tin"
datastores = ["ds1"]
[[machine]]
name = "spare"
network = "lan"
folder = "prod"
pool = "gold"
datastores = ["ds2"]
[[datastore]]
name = "ds1"
devices = ["d1"]
[[datastore]]
name = "ds2"
devices = ["d2"]
[[group]]
name = "g1"
protects = "A"
datastores = ["ds1"]
[[plan]]
name = "p1"
groups = ["g1"]
[[plan.machine]]
name = "web"
after = ["db"]
[[plan.machine]]
name = "app"
priority = 4
"#;

/// Tables behind the small estate: a second protection group, on its own pair, with a plan of its
/// own.
pub const OTHER_GROUP: &str = r#"[[machine]]
name = "mail"
network = "lan"
folder = "prod"
pool = "gold"
datastores = ["ds2"]
[[datastore]]
name = "ds2"
devices = ["d2"]
[[group]]
name = "g2"
protects = "A"
datastores = ["ds2"]
[[plan]]
name = "p2"
groups = ["g2"]
"#;

/// Tables behind the small estate: a third machine, and two plans of all three. In one db and web are
/// a wave, and mail waits for both by its priority; in the other all are one wave.
pub const THREE: &str = r#"[[machine]]
name = "mail"
network = "lan"
folder = "prod"
pool = "gold"
datastores = ["ds1"]
[[plan]]
name = "p2"
groups = ["g1"]
[[plan.machine]]
name = "mail"
priority = 4
[[plan]]
name = "p3"
groups = ["g1"]
"#;

/// The three machines of a plan, each after the next, and the first after the last.
pub const ROUND: &str = r#"form = 1
[[machine]]
name = "a"
network = "lan"
folder = "prod"
pool = "gold"
datastores = ["ds1"]
[[machine]]
name = "b"
network = "lan"
folder = "prod"
pool = "gold"
datastores = ["ds1"]
[[machine]]
name = "c"
network = "lan"
folder = "prod"
pool = "gold"
datastores = ["ds1"]
[[datastore]]
name = "ds1"
devices = ["d1"]
[[group]]
name = "g1"
protects = "A"
datastores = ["ds1"]
[[plan]]
name = "p1"
groups = ["g1"]
[[plan.machine]]
name = "a"
after = ["b"]
[[plan.machine]]
name = "b"
after = ["c"]
[[plan.machine]]
name = "c"
after = ["a"]
"#;

/// Three datastores that links join, in one protection group.
pub const LINKED: &str = r#"form = 1
map = [
{kind="network", side="B", from="lan", to="lan-b"},
{kind="folder", side="B", from="prod", to="dr"},
{kind="pool", side="B", from="gold", to="gold-b"},
{kind="test", side="B", from="lan-b", to="bubble-b"},
{kind="test", side="A", from="lan", to="bubble-a"},
]
[[machine]]
name = "db"
network = "lan"
folder = "prod"
pool = "gold"
datastores = ["ds1", "ds2"]
[[datastore]]
name = "ds1"
devices = ["d1"]
[[datastore]]
name = "ds2"
devices = ["d2"]
[[datastore]]
name = "ds3"
devices = ["d3"]
[[consistency]]
name = "c1"
devices = ["d2", "d3"]
[[group]]
name = "g1"
protects = "A"
datastores = ["ds1", "ds2", "ds3"]
"#;

/// The same machine, storage and consistency group, where the protection group leaves the last
/// datastore out, and no map.
pub const NOT_CLOSED: &str = r#"form = 1
[[machine]]
name = "db"
network = "lan"
folder = "prod"
pool = "gold"
datastores = ["ds1", "ds2"]
[[datastore]]
name = "ds1"
devices = ["d1"]
[[datastore]]
name = "ds2"
devices = ["d2"]
[[datastore]]
name = "ds3"
devices = ["d3"]
[[consistency]]
name = "c1"
devices = ["d2", "d3"]
[[group]]
name = "g1"
protects = "A"
datastores = ["ds1", "ds2"]
"#;

/// One machine, on a group that protects B.
pub const PROTECTS_B: &str = r#"form = 1
map = [
{kind="network", side="A", from="lan", to="lan-a"},
{kind="folder", side="A", from="prod", to="dr"},
{kind="pool", side="A", from="gold", to="gold-a"},
{kind="test", side="A", from="lan-a", to="bubble-a"},
{kind="test", side="B", from="lan", to="bubble-b"},
]
[[machine]]
name = "db"
network = "lan"
folder = "prod"
pool = "gold"
datastores = ["ds1"]
[[datastore]]
name = "ds1"
devices = ["d1"]
[[group]]
name = "g1"
protects = "B"
datastores = ["ds1"]
[[plan]]
name = "p1"
groups = ["g1"]
"#;

/// Two groups that A protects. Each has one pair, and the first has a machine.
pub const TWO_GROUPS: &str = r#"form = 1
map = [
{kind="network", side="B", from="lan", to="lan-b"},
{kind="folder", side="B", from="prod", to="dr"},
{kind="pool", side="B", from="gold", to="gold-b"},
{kind="test", side="B", from="lan-b", to="bubble-b"},
{kind="test", side="A", from="lan", to="bubble-a"},
]
[[machine]]
name = "db"
network = "lan"
folder = "prod/sql"
pool = "gold"
datastores = ["ds1"]
[[datastore]]
name = "ds1"
devices = ["d1"]
[[datastore]]
name = "ds2"
devices = ["d2"]
[[group]]
name = "g1"
protects = "A"
datastores = ["ds1"]
[[group]]
name = "g2"
protects = "A"
datastores = ["ds2"]
"#;

/// Two machines, a and b, on a datastore each, and no map.
pub const UNMAPPED: &str = r#"form = 1
[[machine]]
name = "a"
network = "lan"
folder = "prod"
pool = "gold"
datastores = ["ds1"]
[[machine]]
name = "b"
network = "lan"
folder = "prod"
pool = "gold"
datastores = ["ds2"]
[[datastore]]
name = "ds1"
devices = ["d1"]
[[datastore]]
name = "ds2"
devices = ["d2"]
"#;

/// Two groups of those two machines: the first group holds b, and A protects it; the second one holds
/// a, and B protects it.
pub const CROSSED_GROUPS: &str = r#"[[group]]
name = "g1"
protects = "A"
datastores = ["ds2"]
[[group]]
name = "g2"
protects = "B"
datastores = ["ds1"]
"#;

/// Two groups of those two machines that share the second datastore.
pub const SHARING_GROUPS: &str = r#"[[group]]
name = "g1"
protects = "A"
datastores = ["ds2"]
[[group]]
name = "g2"
protects = "A"
datastores = ["ds1", "ds2"]
"#;
