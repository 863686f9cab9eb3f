//! The routes of a configuration over a space, each with the cube of its matchers.

ghost use Rattle.std.specs.Prelude.{◌≡◌, slice_get, IfOk};
ghost use Rattle.am_config.specs.ConfigView.{config_view};
ghost use Rattle.am_lint.specs.Literals.{path_if_any};
ghost use Rattle.am_lint.specs.Table.{KnowsRoutes, table_space, table_config};

use am_config::{Config, Path};
use am_first_sets::PossibleSets;
use am_judged_lists::Cube;
use am_labels::Space;
use std::alloc::{AllocError, Global};

/// A route by its path, with what a search needs to know about it.
#[derive(Drop)]
pub struct TableRoute {
    pub path: Path,
    pub continues: bool,
    pub cube: Cube,
    pub receiver: usize,
}

/// The routes of a configuration over a space, in preorder, and what is impossible.
#[derive(Drop)]
pub struct Table<'a> {
    pub possible: PossibleSets<'a>,
    pub config: &'a Config,
    pub routes: Vec<TableRoute>,
}

impl<'a> Table<'a> {
    /// Returns the table of a configuration over a space. Fails only if memory runs out.
    pub fn of(alloc: Global, space: &'a Space, config: &'a Config) -> Result<Table<'a>, AllocError>
        ensures space { IfOk result (λ table. table_space table ≡ space.now) }
        ensures config { IfOk result (λ table. table_config table ≡ config_view config.now) }
        ensures knows { IfOk result KnowsRoutes }
    {
        let possible = PossibleSets::of(alloc, space)?;
        let listed = config.routes(alloc)?;
        let mut routes = Vec::with_capacity(alloc, listed.paths.len())?;
        for i in 0..listed.paths.len() {
            let route = listed.routes[i];
            routes.push(TableRoute {
                path: listed.paths[i],
                continues: route.continues(),
                cube: Cube::of(alloc, route.matchers(), space.universe())?,
                receiver: route.receiver(),
            })?;
        }
        Ok(Table {
            possible,
            config,
            routes,
        })
    }

    /// The path of the route at a position of the table; that of the top-level route if there is no
    /// such position.
    pub(crate) fn path_at(&self, position: usize) -> Path
        ensures path { result ≡ path_if_any (slice_get self.now.routes.items position) }
    {
        match self.routes.get(position) {
            Some(route) => route.path,
            None => Path::root(),
        }
    }
}
