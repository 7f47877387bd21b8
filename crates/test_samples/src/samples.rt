//! The estates, as texts in TOML.

/// Two machines on one datastore, with one plan.
pub const SMALL: &str = r#"form = 1
map = [
{kind="network", side="B", from="lan", to="lan-b"},
{kind="folder", side="B", from="prod", to="dr"},
{kind="pool", side="B", from="gold", to="gold-b"},
{kind="test", side="B", from="lan-b", to="bubble-b"},
{kind="test", side="A", from="lan", to="bubble-a"},
]
[[machine]]
name = "db"
network = "lan"
folder = "prod/sql"
pool = "gold"
datastores = ["ds1"]
[[machine]]
name = "web"
network = "lan"
folder = "prod/web"
pool = "gold"
datastores = ["ds1"]
[[datastore]]
name = "ds1"
devices = ["d1"]
[[group]]
name = "g1"
protects = "A"
datastores = ["ds1"]
[[plan]]
name = "p1"
groups = ["g1"]
[[plan.machine]]
name = "web"
after = ["db"]
"#;

/// Forty machines in three protection groups, with one plan of five priorities and two steps.
pub const LARGE: &str = r#"form = 1
map = [
{kind="network", side="B", from="lan", to="lan-b"},
{kind="folder", side="B", from="prod", to="dr"},
{kind="pool", side="B", from="gold", to="gold-b"},
{kind="test", side="B", from="lan-b", to="bubble-b"},
{kind="test", side="A", from="lan", to="bubble-a"},
]
[[machine]]
name = "dns-1"
network = "lan"
folder = "prod"
pool = "gold"
datastores = ["core-1"]
[[machine]]
name = "dns-2"
network = "lan"
folder = "prod"
pool = "gold"
datastores = ["core-1"]
[[machine]]
name = "sql-1"
network = "lan"
folder = "prod"
pool = "gold"
datastores = ["core-2", "core-3"]
[[machine]]
name = "sql-2"
network = "lan"
folder = "prod"
pool = "gold"
datastores = ["core-2", "core-3"]
[[machine]]
name = "app-1"
network = "lan"
folder = "prod"
pool = "gold"
datastores = ["app-1"]
[[machine]]
name = "app-2"
network = "lan"
folder = "prod"
pool = "gold"
datastores = ["app-1"]
[[machine]]
name = "app-3"
network = "lan"
folder = "prod"
pool = "gold"
datastores = ["app-1"]
[[machine]]
name = "app-4"
network = "lan"
folder = "prod"
pool = "gold"
datastores = ["app-2"]
[[machine]]
name = "app-5"
network = "lan"
folder = "prod"
pool = "gold"
datastores = ["app-2"]
[[machine]]
name = "app-6"
network = "lan"
folder = "prod"
pool = "gold"
datastores = ["app-2"]
[[machine]]
name = "app-7"
network = "lan"
folder = "prod"
pool = "gold"
datastores = ["app-3"]
[[machine]]
name = "app-8"
network = "lan"
folder = "prod"
pool = "gold"
datastores = ["app-3"]
[[machine]]
name = "app-9"
network = "lan"
folder = "prod"
pool = "gold"
datastores = ["app-3"]
[[machine]]
name = "app-10"
network = "lan"
folder = "prod"
pool = "gold"
datastores = ["app-4"]
[[machine]]
name = "app-11"
network = "lan"
folder = "prod"
pool = "gold"
datastores = ["app-4"]
[[machine]]
name = "app-12"
network = "lan"
folder = "prod"
pool = "gold"
datastores = ["app-4"]
[[machine]]
name = "web-1"
network = "lan"
folder = "prod"
pool = "gold"
datastores = ["web-1"]
[[machine]]
name = "web-2"
network = "lan"
folder = "prod"
pool = "gold"
datastores = ["web-1"]
[[machine]]
name = "web-3"
network = "lan"
folder = "prod"
pool = "gold"
datastores = ["web-1"]
[[machine]]
name = "web-4"
network = "lan"
folder = "prod"
pool = "gold"
datastores = ["web-1"]
[[machine]]
name = "web-5"
network = "lan"
folder = "prod"
pool = "gold"
datastores = ["web-2"]
[[machine]]
name = "web-6"
network = "lan"
folder = "prod"
pool = "gold"
datastores = ["web-2"]
[[machine]]
name = "web-7"
network = "lan"
folder = "prod"
pool = "gold"
datastores = ["web-2"]
[[machine]]
name = "web-8"
network = "lan"
folder = "prod"
pool = "gold"
datastores = ["web-2"]
[[machine]]
name = "web-9"
network = "lan"
folder = "prod"
pool = "gold"
datastores = ["web-3"]
[[machine]]
name = "web-10"
network = "lan"
folder = "prod"
pool = "gold"
datastores = ["web-3"]
[[machine]]
name = "web-11"
network = "lan"
folder = "prod"
pool = "gold"
datastores = ["web-3"]
[[machine]]
name = "web-12"
network = "lan"
folder = "prod"
pool = "gold"
datastores = ["web-3"]
[[machine]]
name = "web-13"
network = "lan"
folder = "prod"
pool = "gold"
datastores = ["web-4"]
[[machine]]
name = "web-14"
network = "lan"
folder = "prod"
pool = "gold"
datastores = ["web-4"]
[[machine]]
name = "web-15"
network = "lan"
folder = "prod"
pool = "gold"
datastores = ["web-4"]
[[machine]]
name = "web-16"
network = "lan"
folder = "prod"
pool = "gold"
datastores = ["web-4"]
[[machine]]
name = "batch-1"
network = "lan"
folder = "prod"
pool = "gold"
datastores = ["core-4"]
[[machine]]
name = "batch-2"
network = "lan"
folder = "prod"
pool = "gold"
datastores = ["core-4"]
[[machine]]
name = "batch-3"
network = "lan"
folder = "prod"
pool = "gold"
datastores = ["core-4"]
[[machine]]
name = "batch-4"
network = "lan"
folder = "prod"
pool = "gold"
datastores = ["core-4"]
[[machine]]
name = "batch-5"
network = "lan"
folder = "prod"
pool = "gold"
datastores = ["core-4"]
[[machine]]
name = "batch-6"
network = "lan"
folder = "prod"
pool = "gold"
datastores = ["core-4"]
[[machine]]
name = "batch-7"
network = "lan"
folder = "prod"
pool = "gold"
datastores = ["core-4"]
[[machine]]
name = "batch-8"
network = "lan"
folder = "prod"
pool = "gold"
datastores = ["core-4"]
[[datastore]]
name = "core-1"
devices = ["v-core-1"]
[[datastore]]
name = "core-2"
devices = ["v-core-2", "v-core-2b"]
[[datastore]]
name = "core-3"
devices = ["v-core-3"]
[[datastore]]
name = "core-4"
devices = ["v-core-4"]
[[datastore]]
name = "app-1"
devices = ["v-app-1"]
[[datastore]]
name = "app-2"
devices = ["v-app-2"]
[[datastore]]
name = "app-3"
devices = ["v-app-3"]
[[datastore]]
name = "app-4"
devices = ["v-app-4"]
[[datastore]]
name = "web-1"
devices = ["v-web-1"]
[[datastore]]
name = "web-2"
devices = ["v-web-2"]
[[datastore]]
name = "web-3"
devices = ["v-web-3"]
[[datastore]]
name = "web-4"
devices = ["v-web-4"]
[[consistency]]
name = "c-1"
devices = ["v-core-2", "v-core-2b", "v-core-3"]
[[group]]
name = "core"
protects = "A"
datastores = ["core-1", "core-2", "core-3", "core-4"]
[[group]]
name = "app"
protects = "A"
datastores = ["app-1", "app-2", "app-3", "app-4"]
[[group]]
name = "web"
protects = "A"
datastores = ["web-1", "web-2", "web-3", "web-4"]
[[plan]]
name = "all"
groups = ["core", "app", "web"]
[[plan.machine]]
name = "dns-1"
priority = 1
[[plan.machine]]
name = "dns-2"
priority = 1
[[plan.machine]]
name = "sql-1"
priority = 2
[[plan.machine]]
name = "sql-2"
priority = 2
after = ["sql-1"]
[[plan.machine]]
name = "app-1"
[[plan.machine]]
name = "app-2"
[[plan.machine]]
name = "app-3"
[[plan.machine]]
name = "app-4"
[[plan.machine]]
name = "app-5"
[[plan.machine]]
name = "app-6"
[[plan.machine]]
name = "app-7"
[[plan.machine]]
name = "app-8"
[[plan.machine]]
name = "app-9"
[[plan.machine]]
name = "app-10"
[[plan.machine]]
name = "app-11"
[[plan.machine]]
name = "app-12"
[[plan.machine]]
name = "web-1"
priority = 4
[[plan.machine]]
name = "web-2"
priority = 4
[[plan.machine]]
name = "web-3"
priority = 4
[[plan.machine]]
name = "web-4"
priority = 4
[[plan.machine]]
name = "web-5"
priority = 4
[[plan.machine]]
name = "web-6"
priority = 4
[[plan.machine]]
name = "web-7"
priority = 4
[[plan.machine]]
name = "web-8"
priority = 4
[[plan.machine]]
name = "web-9"
priority = 4
[[plan.machine]]
name = "web-10"
priority = 4
[[plan.machine]]
name = "web-11"
priority = 4
[[plan.machine]]
name = "web-12"
priority = 4
[[plan.machine]]
name = "web-13"
priority = 4
[[plan.machine]]
name = "web-14"
priority = 4
[[plan.machine]]
name = "web-15"
priority = 4
[[plan.machine]]
name = "web-16"
priority = 4
[[plan.machine]]
name = "batch-1"
priority = 5
[[plan.machine]]
name = "batch-2"
priority = 5
[[plan.machine]]
name = "batch-3"
priority = 5
[[plan.machine]]
name = "batch-4"
priority = 5
[[plan.machine]]
name = "batch-5"
priority = 5
[[plan.machine]]
name = "batch-6"
priority = 5
[[plan.machine]]
name = "batch-7"
priority = 5
[[plan.machine]]
name = "batch-8"
priority = 5
[[plan.step]]
before = 1
command = "drain"
[[plan.step]]
before = 3
prompt = "check database"
"#;
