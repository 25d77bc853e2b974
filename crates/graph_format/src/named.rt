use crate::actor::FileActor;
use crate::file::FileGraph;
use crate::param::FileParam;
use crate::port::FilePort;
use param_expr::Name;
use pisdf_model::Named;

impl Named for FileParam {
    ghost named = { λ param. param.name };

    fn name(&self) -> &Name {
        &self.name
    }
}

impl Named for FilePort {
    ghost named = { λ port. port.name };

    fn name(&self) -> &Name {
        &self.name
    }
}

impl Named for FileActor {
    ghost named = { λ actor. actor.name };

    fn name(&self) -> &Name {
        &self.name
    }
}

impl Named for FileGraph {
    ghost named = { λ graph. graph.name };

    fn name(&self) -> &Name {
        &self.name
    }
}
